// Registrations ended, on tables that are given sound. For `ledger`.
// Kept apart, by what may not change: a struct of the three loans would ask more of callers, since revoking lends `texts` shared and C lends each table by itself.
#![tactic(auto)]

ghost use Rattle.answers.specs.Calls.{revoke_call};
ghost use Rattle.answers.specs.Does.{Part};
ghost use Rattle.tables.specs.Tables.{Standing, tables};

use ids::{Account, Key};
use ledger_keys::principal_in;
use records::{BlockTime, Principal, Refusal};
use rows::change::shift;
use rows::search::find;

// Ends a registration: its row and its key are taken out, and its revocation is written by its number.
pub fn revoke_sound(
    book: &mut [[u64; 6]],
    keys: &mut [[u8; 32]],
    texts: &[u8],
    caller: Account,
    key: Key,
    time: BlockTime,
) -> Result<Principal, Refusal>
    requires { Standing (tables book.old keys.old texts.now) }
    ensures { Part (revoke_call caller key time)
        (tables book.old keys.old texts.now)
        (tables book.new keys.new texts.now) result }
{
    let head = book[0];
    if caller.0 != head[0] {
        return Err(Refusal::NotOwner);
    }
    let n = head[1] as usize;
    let Some(i) = find(keys, n, key) else {
        return Err(Refusal::KeyNotRegistered);
    };
    let row = book[i + 1];
    shift(&mut keys[0..64], i, n, [0; 32]);
    shift(&mut book[1..65], i, n, [0; 6]);
    book[row[2] as usize + 577] = [1, time.height, time.timestamp_ns, 0, 0, 0];
    book[0][1] = head[1] - 1;
    Ok(principal_in(row))
}
