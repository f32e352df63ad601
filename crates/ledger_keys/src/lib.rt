// Keys registered, and a registration as its row tells it, on tables that are given sound. For `ledger_revocations` and `ledger`.
// Kept apart, by what may not change: a struct of the three loans would ask more of callers, since adding lends `texts` shared and C lends each table by itself.
#![tactic(auto)]

ghost use Rattle.std.specs.Prelude.{◌≡◌, ◌≤◌, get_or};
ghost use Rattle.ledger_keys.specs.Registrations.{principal_of_row};
ghost use Rattle.answers.specs.Calls.{add_call};
ghost use Rattle.answers.specs.Does.{Part};
ghost use Rattle.machine.specs.Rooms.{pending_limit};
ghost use Rattle.tables.specs.Tables.{Standing, tables};

use ids::{Account, Key, RegistrationId, RequestId};
use records::{Principal, Refusal, Role};
use rows::search::find;

// The registration that a row of the book tells. No `From`, which can ask nothing: the row's pending count has to fit.
pub fn principal_in(row: [u64; 6]) -> Principal
    requires { get_or row 4 0 ≤ pending_limit }
    ensures { result ≡ principal_of_row row }
{
    Principal {
        account_id: Account(row[0]),
        role: Role::from(row[1]),
        registration_id: RegistrationId(row[2]),
        active_from: RequestId(row[3]),
        pending: row[4] as u32,
    }
}

// Registers a key. The new registration's revocation row is zero already.
pub fn add_sound(
    book: &mut [[u64; 6]],
    keys: &mut [[u8; 32]],
    texts: &[u8],
    caller: Account,
    key: Key,
    account: Account,
    role: Role,
) -> Result<Principal, Refusal>
    requires { Standing (tables book.old keys.old texts.now) }
    ensures { Part (add_call caller key account role)
        (tables book.old keys.old texts.now)
        (tables book.new keys.new texts.now) result }
{
    let head = book[0];
    if caller.0 != head[0] {
        return Err(Refusal::NotOwner);
    }
    let n = head[1] as usize;
    if find(keys, n, key).is_some() {
        return Err(Refusal::KeyAlreadyRegistered);
    }
    let made = head[2];
    if made >= 256 {
        return Err(Refusal::LogFull);
    }
    if n >= 64 {
        return Err(Refusal::KeysFull);
    }
    let row = [account.0, u64::from(role), made, head[3], 0, 0];
    keys[n] = key;
    book[n + 1] = row;
    book[0] = [caller.0, head[1] + 1, made + 1, head[3], head[4], head[5]];
    Ok(principal_in(row))
}
