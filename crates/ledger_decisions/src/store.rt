// What approving and rejecting both store.
ghost use Rattle.std.specs.Prelude.{◌≡◌, ◌+◌, set};
ghost use Rattle.ledger_decisions.specs.Stores.{Storable, settled};

use ids::Key;

// The decision of request n; and one Pending less of the key at place i, which n was live under.
pub fn store(
    book: &mut [[u64; 6]],
    keys: &mut [[u8; 32]],
    n: usize,
    i: usize,
    decided: [u64; 6],
    key: Key,
)
    requires { Storable book.old keys.old n i }
    ensures book_after { book.new ≡ settled n i decided book.old }
    ensures keys_after { keys.new ≡ set keys.old (n + 320) key }
{
    let mut holder = book[i + 1];
    holder[4] -= 1;
    book[i + 1] = holder;
    book[n + 321] = decided;
    keys[n + 320] = key;
}
