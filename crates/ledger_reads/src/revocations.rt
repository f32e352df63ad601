// When registrations ended.
ghost use Rattle.answers.specs.Calls.{revocations_call};
ghost use Rattle.answers.specs.Does.{Part};
ghost use Rattle.ledger_reads.specs.Read.{EndedAt};
ghost use Rattle.tables.specs.Lent.{lent};

use ids::RegistrationId;
use records::{BlockTime, ProofRevocations, Refusal};
use tables::Sound;

// When a registration ended; nothing for one that is in force, or was never made.
fn ended_at(sound: &Sound<'_>, registration: RegistrationId) -> Option<BlockTime>
    ensures { EndedAt (lent sound.now) registration.0 result }
{
    if registration.0 >= sound.book[0][2] {
        return None;
    }
    let row = sound.book[registration.0 as usize + 577];
    if row[0] == 0 {
        return None;
    }
    Some(BlockTime {
        height: row[1],
        timestamp_ns: row[2],
    })
}

pub fn revocations_sound(
    sound: &Sound<'_>,
    agent: RegistrationId,
    approver: RegistrationId,
) -> Result<ProofRevocations, Refusal>
    ensures { Part (revocations_call agent approver)
        (lent sound.now) (lent sound.now) result }
{
    Ok(ProofRevocations {
        agent: ended_at(sound, agent),
        approver: ended_at(sound, approver),
    })
}
