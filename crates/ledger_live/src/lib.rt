// Whether a request is live, and under which registered key. For the parts of `ledger` that decide a request or read its status.
#![tactic(auto)]

ghost use Rattle.std.specs.Prelude.{◌<◌};
ghost use Rattle.ledger_live.specs.Lives.{Lives};
ghost use Rattle.tables.specs.Lent.{lent};
ghost use Rattle.tables.specs.Parts.{request_count};

use records::Role;
use rows::search::find;
use tables::Sound;

// The source's `live_agent_registration`, of request n: the place of its key, if registered as an Agent's, for its account, since before it.
pub fn live_agent_registration(sound: &Sound<'_>, n: usize) -> Option<usize>
    requires { n < request_count (lent sound.now) }
    ensures { Lives (lent sound.now) n result }
{
    let i = find(sound.keys, sound.book[0][1] as usize, sound.keys[n + 64])?;
    let holder = sound.book[i + 1];
    if holder[1] != u64::from(Role::Agent) {
        return None;
    }
    if holder[0] != sound.book[n + 65][0] {
        return None;
    }
    if holder[3] > n as u64 {
        return None;
    }
    Some(i)
}
