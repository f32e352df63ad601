// Whether each key's pending count is the number of undecided requests under its registration: counted for all registrations in one pass.
ghost use Rattle.std.specs.Prelude.{◌≤◌, length};
ghost use Rattle.ids.specs.Decides.{Decides};
ghost use Rattle.tables.specs.Fit.{Waits};
ghost use Rattle.sound_ties.specs.Places.{Counts};

use crate::used::{Asked, Holders};

// By registration number, how many of the requests wait.
pub fn waiting_counts(asked: &Asked, decided: &[[u64; 6]]) -> [u64; 256]
    requires { length asked.now.rows.now ≤ length decided.now }
    ensures { Counts (length asked.now.rows.now) asked.now.rows.now decided.now result }
{
    let mut counts = [0; 256];
    for (n, row) in asked.rows.iter().enumerate() {
        if decided[n][0] == 0 {
            counts[row[1] as usize] += 1;
        }
    }
    counts
}

pub fn waits(holders: &Holders, asked: &Asked, decided: &[[u64; 6]]) -> bool
    requires { length asked.now.rows.now ≤ length decided.now }
    ensures { Decides result (Waits (length holders.now.rows.now) (length asked.now.rows.now) holders.now.rows.now asked.now.rows.now decided.now) }
{
    let counts = waiting_counts(asked, decided);
    for row in holders.rows {
        if row[4] != counts[row[2] as usize] {
            return false;
        }
    }
    true
}
