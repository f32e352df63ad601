// Whether the head, a registered key's row or a revocation has its form: by value, each left at the first cell that tells.
ghost use Rattle.ids.specs.Decides.{Decides};
ghost use Rattle.tables.specs.Fit.{HeadFits, HolderFits, RevokedFits};

// Every count lies within its room.
pub fn head_fits(row: [u64; 6]) -> bool
    ensures { Decides result (HeadFits row) }
{
    let [_, keys, registrations, requests, log, text] = row;
    keys <= 64 && registrations <= 256 && requests <= 256 && log <= 256 && text <= 32768
}

// A registered key's row, of `made` registrations and `requests` requests.
pub fn holder_fits(row: [u64; 6], made: u64, requests: u64) -> bool
    ensures { Decides result (HolderFits made requests row) }
{
    let [_, role, number, active_from, pending, spare] = row;
    role <= 1
        && number < made
        && active_from <= requests
        && pending <= 16
        // nothing waits under an Approver
        && (role == 0 || pending == 0)
        && spare == 0
}

pub fn revoked_fits(row: [u64; 6]) -> bool
    ensures { Decides result (RevokedFits row) }
{
    let [mark, height, timestamp, ..] = row;
    // No time without a mark.
    mark <= 1 && (mark == 1 || height == 0 && timestamp == 0) && row[3..] == [0; 3]
}
