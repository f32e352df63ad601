// The ledger for programs in C and Rust: entry points on numbers, rows and bytes. Each answers for any arguments and any lent tables. For `host/`.
// Tables, rows and keys are parameters of their own, numbers stand for roles and statuses: the C interface.
#![tactic(auto)]

mod changes;
mod files;
mod outcomes;
mod proof;
mod reads;

pub use changes::{
    brasstally_add, brasstally_approve, brasstally_open, brasstally_reject, brasstally_request,
    brasstally_revoke,
};
pub use files::brasstally_replay;
pub use outcomes::Outcome;
pub use proof::{brasstally_proof, brasstally_revocations};
pub use reads::{brasstally_is_sound, brasstally_page, brasstally_status};
