// The status of a request.
ghost use Rattle.answers.specs.Calls.{status_call};
ghost use Rattle.answers.specs.Does.{Part};
ghost use Rattle.tables.specs.Lent.{lent};

use ids::RequestId;
use ledger_live::live_agent_registration;
use records::{Refusal, RequestStatus};
use tables::Sound;

pub fn status_sound(sound: &Sound<'_>, request: RequestId) -> Result<RequestStatus, Refusal>
    ensures { Part (status_call request) (lent sound.now) (lent sound.now) result }
{
    if request.0 >= sound.book[0][3] {
        return Err(Refusal::RequestNotFound);
    }
    let n = request.0 as usize;
    Ok(match sound.book[n + 321][0] {
        1 => RequestStatus::Approved,
        2 => RequestStatus::Rejected,
        _ => match live_agent_registration(sound, n) {
            Some(_) => RequestStatus::Pending,
            None => RequestStatus::Void,
        },
    })
}
