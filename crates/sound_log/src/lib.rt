// Whether each slot in use of the log has its form, and the log is that of the approvals. For `soundness`.
#![tactic(auto)]

pub mod log;
pub mod shapes;
