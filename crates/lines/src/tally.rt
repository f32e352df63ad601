// The tally of a run: how many commands were read, accepted and refused, each staying at 2^64 - 1.
ghost use Rattle.std.specs.Prelude.{◌≡◌};
ghost use Rattle.lines.specs.Lines.{counted as Lines·counted};
ghost use Rattle.lines.specs.Replies.{told};

use crate::reply::Reply;
use records::Refusal;

#[derive(Clone, Copy, Default)]
pub struct Tally {
    pub commands: u64,
    pub accepted: u64,
    pub refused: u64,
}

// The tally with one command more.
#[tactic(auto, unfolding(crate::specs::Lines::counted))]
pub fn counted(tally: Tally, answer: Result<Reply<'_>, Refusal>) -> Tally
    ensures { result ≡ Lines·counted (told answer.entry) tally }
{
    let commands = tally.commands.saturating_add(1);
    match answer {
        Ok(_) => Tally {
            commands,
            accepted: tally.accepted.saturating_add(1),
            refused: tally.refused,
        },
        Err(_) => Tally {
            commands,
            accepted: tally.accepted,
            refused: tally.refused.saturating_add(1),
        },
    }
}
