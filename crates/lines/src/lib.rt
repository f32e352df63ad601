// What a run says: the lines of its output, each a function of what it tells, and the tally. For `replay`.
#![tactic(auto)]

mod line;
mod output;
mod reply;
mod tally;

pub use output::Out;
pub use reply::Reply;
pub use tally::{Tally, counted};
