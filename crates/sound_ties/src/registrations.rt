// Whether each registration is in force under one key or revoked: one pass over the keys, which notes the place of each registration, and one over the numbers.
ghost use Rattle.std.specs.Prelude.{◌≤◌, length};
ghost use Rattle.std.specs.Bool.{then_some};
ghost use Rattle.ids.specs.Decides.{Decides};
ghost use Rattle.tables.specs.Fit.{Registered};
ghost use Rattle.sound_ties.specs.Places.{InForce, EachPlaced, Noted};

use crate::used::Holders;

// Whether no key's registration is revoked or another key's; if so, `place` has the place of the key that has each. The first fault ends the pass.
// The row of places is lent, so that one stands on the stack of all that check.
#[tactic(auto, using(crate::proofs::Forces::twice))]
pub fn in_force(holders: &Holders, revoked: &[[u64; 6]], place: &mut [Option<usize>; 256]) -> bool
    requires { 256 ≤ length revoked.now }
    ensures { Noted (then_some result place.new) (InForce (length holders.now.rows.now) holders.now.rows.now revoked.now) holders.now.rows.now }
{
    *place = [None; 256];
    for (i, row) in holders.rows.iter().enumerate() {
        let g = row[2] as usize;
        if revoked[g][0] != 0 || place[g].is_some() {
            return false;
        }
        place[g] = Some(i);
    }
    true
}

// Whether every registration that is not revoked has a place.
pub fn each_placed(place: &[Option<usize>; 256], revoked: &[[u64; 6]], made: usize) -> bool
    requires { (made ≤ 256) × (made ≤ length revoked.now) }
    ensures { Decides result (EachPlaced made place.now revoked.now) }
{
    for g in 0..made {
        if revoked[g][0] == 0 && place[g].is_none() {
            return false;
        }
    }
    true
}

pub fn registered(
    holders: &Holders,
    revoked: &[[u64; 6]],
    made: usize,
    place: &mut [Option<usize>; 256],
) -> bool
    requires { (256 ≤ length revoked.now) × (made ≤ 256) }
    ensures { Noted (then_some result place.new) (Registered (length holders.now.rows.now) made holders.now.rows.now revoked.now) holders.now.rows.now }
{
    in_force(holders, revoked, place) && each_placed(place, revoked, made)
}
