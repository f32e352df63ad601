// The reads of a request and of registrations, on tables that are given sound: status, proof and its text, revocations. For `ledger`, which checks the tables first.
#![tactic(auto)]

mod approval;
mod revocations;
mod status;

pub use approval::{approval_sound, approval_text_sound, approved_at};
pub use revocations::revocations_sound;
pub use status::status_sound;
