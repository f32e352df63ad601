// Whether the rows of the lent tables agree with one another: registrations with revocations, requests with keys, pending counts with requests. For `soundness`.
#![tactic(auto)]

pub mod lives;
pub mod pending;
pub mod registrations;
pub mod used;
