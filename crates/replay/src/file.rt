// The whole run.
ghost use Rattle.io.specs.Counts.{IsPrefixLen};
ghost use Rattle.tables.specs.Tables.{tables};
ghost use Rattle.replay.specs.Run.{Replays};
ghost use Rattle.replay.specs.Steps.{Begins};

use crate::each::{Lent, Progress};
use commands::too_long;
use fields::{Fault, Stop};
use lines::{Out, Tally};

// A run's tally, and how many bytes of its lines are written.
#[derive(Clone, Copy)]
pub struct Ran {
    pub tally: Tally,
    pub wrote: usize,
}

// The run's start: an input above the room is stopped at once.
fn first(input: &[u8], lines: &mut Out<'_>) -> Progress
    ensures { Begins input.now lines.old lines.new result }
{
    let tally = Tally::default();
    if too_long(input) {
        lines.stopped_line(Stop {
            fault: Fault::InputTooLong,
            place: 0,
        });
        return Progress { tally, next: None };
    }
    Progress {
        tally,
        next: Some(0),
    }
}

// The lines go to the front of `out`; what passes its end is left out. Tables and row come one by one, as C lends them.
#[tactic(auto, using(crate::proofs::Running::under_more, crate::proofs::Running::nearer))]
pub fn run(
    book: &mut [[u64; 6]],
    keys: &mut [[u8; 32]],
    texts: &mut [u8],
    input: &[u8],
    out: &mut [u8],
) -> Ran
    ensures replays { Replays input.now
        (tables book.old keys.old texts.old)
        (tables book.new keys.new texts.new)
        out.old out.new result }
    ensures prefix_len { IsPrefixLen result.wrote out.new }
{
    let mut requests = [0; 100];
    let mut tables = Lent {
        book,
        keys,
        texts,
        requests: &mut requests,
    };
    let mut lines = Out { row: out, at: 0 };
    let mut p = first(input, &mut lines);
    while let Some(at) = p.next {
        p = tables.advance(input, &mut lines, p.tally, at);
    }
    lines.end_line(p.tally);
    Ran {
        tally: p.tally,
        wrote: lines.at,
    }
}
