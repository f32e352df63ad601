// Tagged fields of the command file, and the faults that stop a run. For `field_values` and the reader of commands.
#![tactic(auto)]

mod fault;
mod field;
mod number;

pub use fault::{Fault, Stop};
pub use field::{Fields, Form};
pub use number::{key_in, number_in};
