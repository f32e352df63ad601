// Why a call is refused: document 01's 21 names, the number and the text of each.
ghost use Rattle.std.specs.Prelude.{◌≡◌, Some};
ghost use Rattle.records.specs.Refusals.{refusal_number, text_of_refusal};

use std::fmt;

// The first is number 1, and each other one the next.
#[derive(Clone, Copy, PartialEq, Eq)]
pub enum Refusal {
    NotOwner = 1,
    IndirectCall,
    UnknownKey,
    WrongRole,
    KeyAccountMismatch,
    KeyAlreadyRegistered,
    KeyNotRegistered,
    EmptyAction,
    ActionTooLong,
    TooManyPending,
    RequestNotFound,
    AlreadyApproved,
    AlreadyRejected,
    AgentRevoked,
    ActionMismatch,
    SelfApproval,
    LogFull,
    KeysFull,
    TextFull,
    Damaged,
    PageRoom,
}

impl From<Refusal> for u64 {
    ghost from_gives = { λ why n. n ≡ refusal_number why };

    fn from(why: Refusal) -> u64 {
        why as u64
    }
}

impl Refusal {
    #[tactic(auto, unfolding(crate::specs::Refusals::text_of_refusal))]
    pub fn text(self) -> &'static str
        ensures { result.now ≡ text_of_refusal self }
    {
        match self {
            Refusal::NotOwner => "only the owner can manage keys",
            Refusal::IndirectCall => "caller must be the signing account",
            Refusal::UnknownKey => "signing key is unknown",
            Refusal::WrongRole => "signing key has the wrong role",
            Refusal::KeyAccountMismatch => "signing key belongs to another account",
            Refusal::KeyAlreadyRegistered => "key is already registered",
            Refusal::KeyNotRegistered => "key to revoke was not found",
            Refusal::EmptyAction => "action is empty",
            Refusal::ActionTooLong => "action exceeds 2048 bytes",
            Refusal::TooManyPending => "agent key has too many pending requests",
            Refusal::RequestNotFound => "request not found",
            Refusal::AlreadyApproved => "request is already approved",
            Refusal::AlreadyRejected => "request is already rejected",
            Refusal::AgentRevoked => "request is void: its agent key was revoked",
            Refusal::ActionMismatch => "action does not match the request",
            Refusal::SelfApproval => "approver and agent must be different accounts",
            Refusal::LogFull => "log is full",
            Refusal::KeysFull => "key table is full",
            Refusal::TextFull => "text table is full",
            Refusal::Damaged => "tables are not a sound ledger",
            Refusal::PageRoom => "page does not hold the answer",
        }
    }
}

impl fmt::Display for Refusal {
    ghost output = { λ why. Some (text_of_refusal why) };

    fn fmt<W: fmt::Write>(&self, f: &mut fmt::Formatter<W>) -> fmt::Result {
        f.write_str(self.text())
    }
}
