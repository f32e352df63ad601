// A page of the log, on tables that are given sound. For `ledger`, which checks the tables first.
#![tactic(auto)]

mod page;

pub use page::{Place, page_sound};
