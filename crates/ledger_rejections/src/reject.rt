// A request rejected: the source's `reject`.
ghost use Rattle.answers.specs.Calls.{reject_call};
ghost use Rattle.answers.specs.Does.{Part};
ghost use Rattle.tables.specs.Tables.{Standing, tables};

use ids::{RegistrationId, RequestId};
use ledger_callers::authenticate;
use ledger_decisions::store::store;
use ledger_requests::{decidable_request, request_of};
use records::{ActionRequest, BlockTime, Caller, Decision, Refusal, Rejection, Role};
use tables::Sound;

// Document 01's 2, 3, 4, 5, 11, 12, 13, 14, 16, in that order.
pub fn reject_sound(
    book: &mut [[u64; 6]],
    keys: &mut [[u8; 32]],
    texts: &mut [u8],
    caller: Caller,
    request: RequestId,
    time: BlockTime,
) -> Result<ActionRequest, Refusal>
    requires { Standing (tables book.old keys.old texts.old) }
    ensures { Part (reject_call caller request time)
        (tables book.old keys.old texts.old)
        (tables book.new keys.new texts.new) result }
{
    let sound = Sound { book, keys, texts };
    let by = authenticate(&sound, caller, Role::Approver)?;
    let i = decidable_request(&sound, request)?;
    let n = request.0 as usize;
    let asked = book[n + 65];
    if caller.signer.0 == asked[0] {
        return Err(Refusal::SelfApproval);
    }
    let key = caller.signer_key;
    let number = book[by + 1][2];
    let decided = [
        2,
        0,
        caller.signer.0,
        number,
        time.height,
        time.timestamp_ns,
    ];
    let rejection = Rejection {
        approver_account_id: caller.signer,
        approver_key: key,
        approver_registration_id: RegistrationId(number),
        rejected_at: time,
    };
    let agent_key = keys[n + 64];
    store(book, keys, n, i, decided, key);
    let decision = Some(Decision::Rejected(rejection));
    Ok(request_of(request, asked, agent_key, decision))
}
