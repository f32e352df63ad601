// Whether what was asked, or a decision, has its form: by value, each left at the first cell that tells.
ghost use Rattle.ids.specs.Decides.{Decides};
ghost use Rattle.tables.specs.Fit.{AskedFits, DecidedFits};

// What was asked; where its text starts is not the row's own affair.
pub fn asked_fits(row: [u64; 6], made: u64) -> bool
    ensures { Decides result (AskedFits made row) }
{
    let [_, registration, _, length, ..] = row;
    registration < made && 0 < length && length <= 2048
}

// A decision, with the key that made it, on a request of the account `agent`.
pub fn decided_fits(row: [u64; 6], key: &[u8; 32], made: u64, agent: u64) -> bool
    ensures { Decides result (DecidedFits made agent row key.now) }
{
    let [mark, index, account, registration, ..] = row;
    match mark {
        0 => row == [0; 6] && *key == [0; 32],
        // a rejection has no index
        1 | 2 => registration < made && account != agent && (mark == 1 || index == 0),
        _ => false,
    }
}
