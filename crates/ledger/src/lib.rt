// THE PUBLIC LEDGER. Every function answers for any arguments and any lent tables, and demands nothing of its caller. For programs, hosts and whoever keeps a ledger.
// The tables come as three slices, as C and every caller lend them: the check makes them one.
#![tactic(auto)]

mod change;
mod opening;
mod page;
mod read;

pub use change::{add_principal, approve, reject, request_action, revoke_key};
pub use opening::open;
pub use page::{approvals, approvals_as_numbers, approvals_page};
pub use read::{approval, approval_text, proof_revocations, request_status};
