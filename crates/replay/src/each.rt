// One step of a run: the command at a place of the input is read and done, or the run ends there.
ghost use Rattle.replay.specs.Steps.{Steps};

use acts::act;
use commands::read_command;
use lines::{Out, Tally, counted};

// The tables that a run is lent, and its row for a page's request numbers: one for all steps, as each would clear its own.
#[derive(Drop)]
pub struct Lent<'a> {
    pub book: &'a mut [[u64; 6]],
    pub keys: &'a mut [[u8; 32]],
    pub texts: &'a mut [u8],
    pub requests: &'a mut [u64; 100],
}

// How far a run has come: its tally, and the place of the next command, if it goes on.
#[derive(Clone, Copy)]
pub struct Progress {
    pub tally: Tally,
    pub next: Option<usize>,
}

impl Lent<'_> {
    #[tactic(auto, using(crate::proofs::Running::ended_there, crate::proofs::Running::fault_there))]
    pub fn stepped(
        &mut self,
        input: &[u8],
        lines: &mut Out<'_>,
        tally: Tally,
        at: usize,
    ) -> Progress
        ensures { Steps input.now self.old self.new lines.old lines.new tally at result }
    {
        match read_command(input, at) {
            Ok(Some((command, next))) => {
                let answer = act(self.book, self.keys, self.texts, command, self.requests);
                lines.answer_line(tally.commands, answer);
                Progress {
                    tally: counted(tally, answer),
                    next: Some(next),
                }
            }
            Ok(None) => Progress { tally, next: None },
            Err(stop) => {
                lines.stopped_line(stop);
                Progress { tally, next: None }
            }
        }
    }
}
