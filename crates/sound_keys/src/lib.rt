// Whether the head and each row in use of a registered key and of a revocation have their form. For `soundness`.
#![tactic(auto)]

pub mod passes;
pub mod shapes;
