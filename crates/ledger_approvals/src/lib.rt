// Requests approved, on tables that are given sound. For `ledger`, and for a run that checks once.
// `approve_sound` takes the tables apart, not in a struct: C lends each by itself, and adding and revoking lend one of them shared, so no one struct of loans fits every change.
#![tactic(auto)]

mod approve;
mod told;

pub use approve::approve_sound;
