// What a registered key is for, and its number in tables and command files.
ghost use Rattle.std.specs.Prelude.{◌≡◌};
ghost use Rattle.ids.specs.Decides.{Decides};
ghost use Rattle.records.specs.Roles.{role_number, role_of};

#[derive(Clone, Copy, PartialEq, Eq)]
pub enum Role {
    Agent,
    Approver,
}

// That `==` tells roles apart: a theorem, so there is nothing to do.
pub fn role_equality()
    ensures { (a b : Role) → Decides (⟦<Role as PartialEq>⟧.eq a b) (a ≡ b) }
{}

impl From<Role> for u64 {
    ghost from_gives = { λ r n. n ≡ role_number r };

    fn from(r: Role) -> u64 {
        r as u64
    }
}

// Every number but 0 reads as an Approver: who reads one has seen that it is 0 or 1.
impl From<u64> for Role {
    ghost from_gives = { λ n r. r ≡ role_of n };

    fn from(n: u64) -> Role {
        match n {
            0 => Role::Agent,
            _ => Role::Approver,
        }
    }
}
