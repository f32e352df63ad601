// Whether a request may be decided: the source's `decidable_request`.
ghost use Rattle.tables.specs.Lent.{lent};
ghost use Rattle.ledger_requests.specs.Candidates.{MayDecide};

use ids::RequestId;
use ledger_live::live_agent_registration;
use records::Refusal;
use tables::Sound;

// Document 01's 11, 12, 13, 14, in that order: the place of the key that the request waits under, or why it may not be decided.
pub fn decidable_request(sound: &Sound<'_>, request: RequestId) -> Result<usize, Refusal>
    ensures { MayDecide (lent sound.now) request.0 result }
{
    if request.0 >= sound.book[0][3] {
        return Err(Refusal::RequestNotFound);
    }
    let n = request.0 as usize;
    let mark = sound.book[n + 321][0];
    if mark == 1 {
        return Err(Refusal::AlreadyApproved);
    }
    if mark == 2 {
        return Err(Refusal::AlreadyRejected);
    }
    let Some(i) = live_agent_registration(sound, n) else {
        return Err(Refusal::AgentRevoked);
    };
    Ok(i)
}
