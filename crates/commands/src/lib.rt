// The command file: what it may hold, and the reader of one command. For the run, which acts on each command.
#![tactic(auto)]

mod command;
mod kind;
mod reader;

pub use command::{
    AddCommand, ApproveCommand, Command, PageCommand, RejectCommand, RequestCommand, RevokeCommand,
};
pub use reader::{read_command, too_long};
