// Tables in lent slices: rows of six numbers, keys of 32 bytes, bytes. For the crates that lay a ledger out in them.
#![tactic(auto)]

pub mod change;
pub mod compare;
pub mod search;
