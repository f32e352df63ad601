// Whether one slot of the log has its form: by value, left at the first cell that tells.
ghost use Rattle.std.specs.Prelude.{length};
ghost use Rattle.ids.specs.Decides.{Decides};
ghost use Rattle.tables.specs.Fit.{SlotFits};

// Slot j of the log: the request that it names is approved, at index j.
pub fn slot_fits(row: [u64; 6], decided: &[[u64; 6]], j: u64) -> bool
    ensures { Decides result (SlotFits (length decided.now) j decided.now row) }
{
    let n = row[0];
    n < decided.len() as u64
        && decided[n as usize][0] == 1
        && decided[n as usize][1] == j
        && row == [n, 0, 0, 0, 0, 0]
}
