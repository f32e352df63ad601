// Whether each row of a region has its form: one pass each, over the rows in use, left at the first that has not.
ghost use Rattle.std.specs.Prelude.{◌≤◌, length};
ghost use Rattle.ids.specs.Decides.{Decides};
ghost use Rattle.tables.specs.Fit.{AllAskedFit, AllDecidedFit};

use crate::shapes::{asked_fits, decided_fits};

// Each text starts where the last ended, and the last ends at the used count.
pub fn all_asked_fit(asked: &[[u64; 6]], m: usize, made: u64, used: u64) -> bool
    requires { (m ≤ 256) × (m ≤ length asked.now) }
    ensures { Decides result (AllAskedFit m made used asked.now) }
{
    let mut start = 0;
    for row in &asked[..m] {
        if !asked_fits(*row, made) || row[2] != start {
            return false;
        }
        start += row[3];
    }
    start == used
}

pub fn all_decided_fit(
    asked: &[[u64; 6]],
    decided: &[[u64; 6]],
    approvers: &[[u8; 32]],
    m: usize,
    made: u64,
) -> bool
    requires { (m ≤ length asked.now) × (m ≤ length decided.now) × (m ≤ length approvers.now) }
    ensures { Decides result (AllDecidedFit m made asked.now decided.now approvers.now) }
{
    // by place, since three tables are read there
    for n in 0..m {
        if !decided_fits(decided[n], &approvers[n], made, asked[n][0]) {
            return false;
        }
    }
    true
}
