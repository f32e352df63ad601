// A step of a run whose tally is lent and counted in place, and its caller, which lends its own.
ghost use Rattle.replay.specs.Steps.{Steps};

use crate::each::{Lent, Progress};
use lines::{Out, Tally};

impl Lent<'_> {
    // The place of the next command, if the run goes on.
    pub fn step(
        &mut self,
        input: &[u8],
        lines: &mut Out<'_>,
        tally: &mut Tally,
        at: usize,
    ) -> Option<usize>
        ensures { Steps input.now self.old self.new lines.old lines.new tally.old at (record { tally = tally.new; next = result }) }
    {
        let p = self.stepped(input, lines, *tally, at);
        *tally = p.tally;
        p.next
    }

    // The same step by value: the tally is a local, lent for the call.
    pub fn advance(
        &mut self,
        input: &[u8],
        lines: &mut Out<'_>,
        tally: Tally,
        at: usize,
    ) -> Progress
        ensures { Steps input.now self.old self.new lines.old lines.new tally at result }
    {
        let mut tally = tally;
        let next = self.step(input, lines, &mut tally, at);
        Progress { tally, next }
    }
}
