// A request's record, as its row and its agent's key tell it.
ghost use Rattle.std.specs.Prelude.{◌≡◌};
ghost use Rattle.ledger_requests.specs.Recorded.{request_told};

use ids::{Account, Key, RegistrationId, RequestId};
use records::{ActionRequest, BlockTime, Decision};

pub fn request_of(
    id: RequestId,
    asked: [u64; 6],
    agent_key: Key,
    decision: Option<Decision>,
) -> ActionRequest
    ensures { result ≡ request_told id asked agent_key decision }
{
    ActionRequest {
        id,
        agent_account_id: Account(asked[0]),
        agent_key,
        agent_registration_id: RegistrationId(asked[1]),
        requested_at: BlockTime {
            height: asked[4],
            timestamp_ns: asked[5],
        },
        decision,
    }
}
