// Numbers and keys out of a lent part of the input. For the readers of fields.
ghost use Rattle.std.specs.Prelude.{◌≡◌, ◌≤◌, length};
ghost use Rattle.fields.specs.Numbers.{number};

use ids::Key;

// High byte first, in as many bytes as the part has.
#[tactic(auto, using(crate::proofs::Numbers::grows), unfolding(crate::specs::Numbers::number))]
pub fn number_in(part: &[u8]) -> u64
    requires { length part.now ≤ 8 }
    ensures { result ≡ number part.now }
{
    let mut n = 0;
    for byte in part {
        n = n * 256 + u64::from(*byte);
    }
    n
}

pub fn key_in(part: &[u8]) -> Key
    requires { length part.now ≡ 32 }
    ensures { result ≡ part.now }
{
    let mut key = [0; 32];
    key.copy_from_slice(part);
    key
}
