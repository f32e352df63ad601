// The ledger's records in the source's names, a request's text apart; and why a call is refused. For every crate above.
#![tactic(auto)]

mod refusal;
mod role;
mod status;

use ids::{Account, Key, RegistrationId, RequestId};
pub use refusal::Refusal;
pub use role::{Role, role_equality};
pub use status::RequestStatus;

// When a block was made. Any two numbers are a time.
#[derive(Clone, Copy, Default)]
pub struct BlockTime {
    pub height: u64,
    pub timestamp_ns: u64,
}

// A registered key's owner and role. `pending` is 0 for an Approver.
#[derive(Clone, Copy)]
pub struct Principal {
    pub account_id: Account,
    pub role: Role,
    pub registration_id: RegistrationId,
    pub active_from: RequestId,
    pub pending: u32,
}

// Who calls: the account at hand, the account that signed, and the key it signed with.
#[derive(Clone, Copy)]
pub struct Caller {
    pub predecessor: Account,
    pub signer: Account,
    pub signer_key: Key,
}

#[derive(Clone, Copy)]
pub struct Approval {
    pub approval_index: u64,
    pub approver_account_id: Account,
    pub approver_key: Key,
    pub approver_registration_id: RegistrationId,
    pub approved_at: BlockTime,
}

#[derive(Clone, Copy)]
pub struct Rejection {
    pub approver_account_id: Account,
    pub approver_key: Key,
    pub approver_registration_id: RegistrationId,
    pub rejected_at: BlockTime,
}

// The one decision that a request may have: the source's two `Option`s, of which at most one is ever set.
#[derive(Clone, Copy)]
pub enum Decision {
    Approved(Approval),
    Rejected(Rejection),
}

#[derive(Clone, Copy)]
pub struct ActionRequest {
    pub id: RequestId,
    pub agent_account_id: Account,
    pub agent_key: Key,
    pub agent_registration_id: RegistrationId,
    pub requested_at: BlockTime,
    pub decision: Option<Decision>,
}

#[derive(Clone, Copy)]
pub struct ApprovalProof {
    pub approval_index: u64,
    pub request_id: RequestId,
    pub agent_account_id: Account,
    pub agent_key: Key,
    pub agent_registration_id: RegistrationId,
    pub requested_at: BlockTime,
    pub approver_account_id: Account,
    pub approver_key: Key,
    pub approver_registration_id: RegistrationId,
    pub approved_at: BlockTime,
}

// When each of two registrations was revoked, if it was.
#[derive(Clone, Copy)]
pub struct ProofRevocations {
    pub agent: Option<BlockTime>,
    pub approver: Option<BlockTime>,
}

// One slot of the log, on a page.
#[derive(Clone, Copy, Default)]
pub struct PageEntry {
    pub slot: u64,
    pub request_id: RequestId,
    pub agent_registration_id: RegistrationId,
    pub approver_registration_id: RegistrationId,
    pub requested_at: BlockTime,
    pub approved_at: BlockTime,
}
