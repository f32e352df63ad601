// Whether entries are zero, or keys the same: read in place, and left at the first entry that tells.
ghost use Rattle.std.specs.Prelude.{◌≡◌, replicate};
ghost use Rattle.ids.specs.Decides.{Decides};
ghost use Rattle.rows.specs.Zeros.{ZeroFrom};

// What an unused entry of a table holds.
pub trait Zero {
    ghost zero: { Self };

    fn is_zero(&self) -> bool
        ensures { Decides result (self.now ≡ zero) };
}

impl Zero for u64 {
    ghost zero = { 0 };

    fn is_zero(&self) -> bool {
        *self == 0
    }
}

impl Zero for u8 {
    ghost zero = { 0 };

    fn is_zero(&self) -> bool {
        *self == 0
    }
}

impl<T: Zero, const N: usize> Zero for [T; N] {
    ghost zero = { replicate N T.zero };

    #[tactic(auto, using(crate::proofs::Zeros::zero_whole))]
    fn is_zero(&self) -> bool {
        // not by `zero_from`: a loop of constant length is unrolled
        for x in self {
            if !x.is_zero() {
                return false;
            }
        }
        true
    }
}

// Whether every entry from `from` on is zero.
pub fn zero_from<T: Zero>(t: &[T], from: usize) -> bool
    ensures { Decides result (ZeroFrom T.zero from t.now) }
{
    for i in from..t.len() {
        if !t[i].is_zero() {
            return false;
        }
    }
    true
}

// Whether two keys are the same: all but their last bytes in few reads, and the last only where those agree.
fn alike(a: &[u8; 32], b: &[u8; 32]) -> bool
    ensures { Decides result (a.now ≡ b.now) }
{
    a.starts_with(&b[..31]) && a[31] == b[31]
}

// The same. The first byte tells most keys apart: always inlined, so that it costs no call.
#[inline(always)]
pub fn same_key(a: &[u8; 32], b: &[u8; 32]) -> bool
    ensures { Decides result (a.now ≡ b.now) }
{
    a[0] == b[0] && alike(a, b)
}
