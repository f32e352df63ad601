// Whether each row of a region has its form: one pass each, over the rows in use, left at the first that has not.
ghost use Rattle.std.specs.Prelude.{◌≤◌, length};
ghost use Rattle.ids.specs.Decides.{Decides};
ghost use Rattle.tables.specs.Fit.{HoldersFit, AllRevokedFit};

use crate::shapes::{holder_fits, revoked_fits};

pub fn holders_fit(holders: &[[u64; 6]], n: usize, made: u64, requests: u64) -> bool
    requires { n ≤ length holders.now }
    ensures { Decides result (HoldersFit n made requests holders.now) }
{
    holders[..n]
        .iter()
        .all(|row| holder_fits(*row, made, requests))
}

pub fn all_revoked_fit(revoked: &[[u64; 6]], made: usize) -> bool
    requires { made ≤ length revoked.now }
    ensures { Decides result (AllRevokedFit made revoked.now) }
{
    revoked[..made].iter().all(|row| revoked_fits(*row))
}
