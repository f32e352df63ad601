// Fields of the command file by what they hold, alone and in the groups that several kinds have. For the reader of commands.
#![tactic(auto)]

mod typed;

pub use typed::{caller, key_field, message, number_field, role_field, time_field};
