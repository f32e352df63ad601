// The proof of a request, as its row, its agent's key and its approval tell it.
ghost use Rattle.std.specs.Prelude.{◌≡◌};
ghost use Rattle.ledger_approvals.specs.Recorded.{proof_told};

use ids::{Account, Key, RegistrationId, RequestId};
use records::{Approval, ApprovalProof, BlockTime};

pub fn proof_of(id: RequestId, asked: [u64; 6], agent_key: Key, approval: Approval) -> ApprovalProof
    ensures { result ≡ proof_told id asked agent_key approval }
{
    let Approval {
        approval_index,
        approver_account_id,
        approver_key,
        approver_registration_id,
        approved_at,
    } = approval;
    ApprovalProof {
        approval_index,
        request_id: id,
        agent_account_id: Account(asked[0]),
        agent_key,
        agent_registration_id: RegistrationId(asked[1]),
        requested_at: BlockTime {
            height: asked[4],
            timestamp_ns: asked[5],
        },
        approver_account_id,
        approver_key,
        approver_registration_id,
        approved_at,
    }
}
