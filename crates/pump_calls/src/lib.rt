// What the scenes of `pump` are made of: who calls, a ledger and the public calls on it, and the line that tells what a call came to.
#![tactic(auto)]

pub mod desk;
pub mod people;
pub mod rounds;
pub mod tell;
