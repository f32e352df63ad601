// Whether each row in use of a request and of its decision has its form, and texts lie without gaps. For `soundness`.
#![tactic(auto)]

pub mod passes;
pub mod shapes;
