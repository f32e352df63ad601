// Who may call, on tables that are known to be sound. For `ledger_requests` and the decisions.
#![tactic(auto)]

ghost use Rattle.ledger_callers.specs.Authenticates.{Authenticates};
ghost use Rattle.tables.specs.Lent.{lent};

use records::{Caller, Refusal, Role};
use rows::search::find;
use tables::Sound;

// The place of the caller's key among the registered ones, or why it is refused.
pub fn authenticate(sound: &Sound<'_>, caller: Caller, role: Role) -> Result<usize, Refusal>
    ensures { Authenticates (lent sound.now) caller role result }
{
    if caller.predecessor != caller.signer {
        return Err(Refusal::IndirectCall);
    }
    let n = sound.book[0][1] as usize;
    let Some(i) = find(sound.keys, n, caller.signer_key) else {
        return Err(Refusal::UnknownKey);
    };
    let holder = sound.book[i + 1];
    if holder[1] != u64::from(role) {
        return Err(Refusal::WrongRole);
    }
    if holder[0] != caller.signer.0 {
        return Err(Refusal::KeyAccountMismatch);
    }
    Ok(i)
}
