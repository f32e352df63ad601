// A request approved: the source's `approve`.
ghost use Rattle.answers.specs.Calls.{approve_call};
ghost use Rattle.answers.specs.Does.{Part};
ghost use Rattle.tables.specs.Tables.{Standing, tables};

use crate::told::proof_of;
use ids::{RegistrationId, RequestId};
use ledger_callers::authenticate;
use ledger_decisions::store::store;
use ledger_requests::decidable_request;
use records::{Approval, ApprovalProof, BlockTime, Caller, Refusal, Role};
use tables::Sound;

// Document 01's 2, 3, 4, 5, 11, 12, 13, 14, 15, 16, in that order. The log has a slot for each request, so it is never full here.
pub fn approve_sound(
    book: &mut [[u64; 6]],
    keys: &mut [[u8; 32]],
    texts: &mut [u8],
    caller: Caller,
    request: RequestId,
    action: &[u8],
    time: BlockTime,
) -> Result<ApprovalProof, Refusal>
    requires { Standing (tables book.old keys.old texts.old) }
    ensures { Part (approve_call caller request action.now time)
        (tables book.old keys.old texts.old)
        (tables book.new keys.new texts.new) result }
{
    let sound = Sound { book, keys, texts };
    let by = authenticate(&sound, caller, Role::Approver)?;
    let i = decidable_request(&sound, request)?;
    let n = request.0 as usize;
    let asked = book[n + 65];
    let start = asked[2] as usize;
    let end = start + asked[3] as usize;
    if &texts[start..end] != action {
        return Err(Refusal::ActionMismatch);
    }
    if caller.signer.0 == asked[0] {
        return Err(Refusal::SelfApproval);
    }
    let mut head = book[0];
    let j = head[4];
    let key = caller.signer_key;
    let number = book[by + 1][2];
    let decided = [
        1,
        j,
        caller.signer.0,
        number,
        time.height,
        time.timestamp_ns,
    ];
    let approval = Approval {
        approval_index: j,
        approver_account_id: caller.signer,
        approver_key: key,
        approver_registration_id: RegistrationId(number),
        approved_at: time,
    };
    let agent_key = keys[n + 64];
    store(book, keys, n, i, decided, key);
    book[j as usize + 833] = [request.0, 0, 0, 0, 0, 0];
    head[4] = j + 1;
    book[0] = head;
    Ok(proof_of(request, asked, agent_key, approval))
}
