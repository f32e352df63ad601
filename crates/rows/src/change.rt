// Changes of a whole table: cleared, one entry taken out, bytes written in.
ghost use Rattle.std.specs.Prelude.{◌≡◌, ◌+◌, ◌≤◌, ◌<◌, length, replicate};
ghost use Rattle.std.proofs.Math.Seq.{paste};
ghost use Rattle.rows.specs.Padded.{slid};

#[tactic(auto, using(crate::proofs::Written::cleared_more))]
pub fn clear<T: Copy>(t: &mut [T], zero: T)
    ensures { t.new ≡ replicate (length t.old) zero }
{
    // A loop: `fill` asks that cloning a T cannot fail, and no bound says so.
    for x in t {
        *x = zero;
    }
}

// Takes row `at` out of the first n: the later ones of them move down, and the last is zero.
#[tactic(auto, using(crate::proofs::Written::shifted))]
pub fn shift<T: Copy>(t: &mut [T], at: usize, n: usize, zero: T)
    requires { (at < n) × (n ≤ length t.old) }
    ensures { t.new ≡ slid at n zero t.old }
{
    t.copy_within(at + 1..n, at);
    t[n - 1] = zero;
}

// Writes the bytes of s from place `at` on.
#[tactic(auto, using(std::proofs::lemmas::List::Edits::paste_more))]
pub fn put_bytes(t: &mut [u8], at: usize, s: &[u8])
    requires { at + length s.now ≤ length t.old }
    ensures { t.new ≡ paste t.old at s.now (length s.now) }
{
    // A loop: `copy_from_slice` would have the archive for C need `memmove` from outside.
    for (i, byte) in s.iter().enumerate() {
        t[at + i] = *byte;
    }
}
