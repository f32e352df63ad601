// Requests, asked for and looked up, on tables that are given sound. For `ledger_decisions` and the two above it, `ledger`, and a run that checks once.
// `request_sound` takes the tables apart, not in a struct: C lends each by itself, and adding and revoking lend one of them shared, so no one struct of loans fits every change.
#![tactic(auto)]

mod ask;
mod decidable;
mod told;

pub use ask::request_sound;
pub use decidable::decidable_request;
pub use told::request_of;
