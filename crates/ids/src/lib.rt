// Who and what the ledger speaks of: accounts, requests and registrations by number, keys by their 32 bytes. For every crate above.
#![tactic(auto)]

ghost use Rattle.std.specs.Prelude.{◌≡◌, ℕ, List, length};
ghost use Rattle.ids.specs.Decides.{Decides};

// Every number is an account, a request's number, a registration's number; none is another's.
#[derive(Clone, Copy, Default, PartialEq, Eq)]
pub struct Account(pub u64);

#[derive(Clone, Copy, Default, PartialEq, Eq)]
pub struct RequestId(pub u64);

#[derive(Clone, Copy, Default, PartialEq, Eq)]
pub struct RegistrationId(pub u64);

// Every 32 bytes are a key.
pub type Key = [u8; 32];

// That `==` tells which of them are the same: a theorem, so there is nothing to do.
pub fn equality()
    ensures accounts { (a b : Account) → Decides (⟦<Account as PartialEq>⟧.eq a b) (a ≡ b) }
    ensures requests { (a b : RequestId) → Decides (⟦<RequestId as PartialEq>⟧.eq a b) (a ≡ b) }
    ensures registrations { (a b : RegistrationId) → Decides (⟦<RegistrationId as PartialEq>⟧.eq a b) (a ≡ b) }
    ensures keys { (a b : List ℕ) → Decides (⟦<Key as PartialEq>⟧.eq a b) (a ≡ b) }
{}
