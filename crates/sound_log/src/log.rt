// Whether the log and the approvals are one another's: slots, indices and their number, in a pass each over the rows in use.
ghost use Rattle.std.specs.Prelude.{◌≡◌, eqb, length};
ghost use Rattle.ids.specs.Decides.{Decides};
ghost use Rattle.lists.specs.Tallies.{count};
ghost use Rattle.tables.specs.Fit.{LogFits};
ghost use Rattle.tables.specs.Parts.{cell};
ghost use Rattle.sound_log.specs.Approvals.{Slots, Indices};

use crate::shapes::slot_fits;

// Each slot names an approved request of its own index.
pub fn slots_fit(log: &[[u64; 6]], decided: &[[u64; 6]]) -> bool
    ensures { Decides result (Slots (length log.now) (length decided.now) log.now decided.now) }
{
    for (j, row) in log.iter().enumerate() {
        if !slot_fits(*row, decided, j as u64) {
            return false;
        }
    }
    true
}

// Each approved request stands in the slot of its index.
pub fn indices_fit(log: &[[u64; 6]], decided: &[[u64; 6]]) -> bool
    ensures { Decides result (Indices (length log.now) (length decided.now) log.now decided.now) }
{
    for (n, row) in decided.iter().enumerate() {
        let j = row[1] as usize;
        if row[0] == 1 && (j >= log.len() || log[j][0] != n as u64) {
            return false;
        }
    }
    true
}

// How many requests are approved.
pub fn approved_count(decided: &[[u64; 6]]) -> usize
    ensures { result ≡ count (length decided.now) (λ n. eqb (cell n 0 decided.now) 1) }
{
    decided.iter().filter(|row| row[0] == 1).count()
}

pub fn log_fits(log: &[[u64; 6]], decided: &[[u64; 6]]) -> bool
    ensures { Decides result (LogFits (length log.now) (length decided.now) log.now decided.now) }
{
    slots_fit(log, decided) && indices_fit(log, decided) && log.len() == approved_count(decided)
}
