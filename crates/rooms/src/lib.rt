// What programs read into: a ledger's tables and rows of zeros, for them to lend, and the reading.
#![tactic(auto)]

pub mod reading;

ghost use Rattle.std.specs.Prelude.{◌≡◌, length};

// The promise gives the length alone, which lending a slice needs; so no proof spells the zeros out.
pub fn zeros<T: Copy, const N: usize>(zero: T) -> [T; N]
    ensures { N ≡ length result }
{
    [zero; N]
}

// A ledger's tables.
#[derive(Drop)]
pub struct Tables {
    pub book: [[u64; 6]; 1089],
    pub keys: [[u8; 32]; 576],
    pub texts: [u8; 32768],
}

impl Tables {
    pub fn new() -> Tables
        ensures book { 1089 ≡ length result.book }
        ensures keys { 576 ≡ length result.keys }
        ensures texts { 32768 ≡ length result.texts }
    {
        Tables {
            book: zeros([0; 6]),
            keys: zeros([0; 32]),
            texts: zeros(0),
        }
    }
}

// 2 MiB hold the lines of every command file.
pub fn lines() -> [u8; 2097152]
    ensures { 2097152 ≡ length result }
{
    zeros(0)
}
