// The run of a command file: each command is read wholly, done through the public ledger, and told in a line. For the program and the host.
#![tactic(auto)]

mod each;
mod file;
mod lent;

pub use each::Progress;
pub use file::{Ran, run};
