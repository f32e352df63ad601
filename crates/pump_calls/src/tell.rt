// A line for each sentence: its words, what the call answered, and what document 01 says, if that is something else.
use records::Refusal;
use std::{fmt, io};

// The number that an accepted call gave.
#[derive(Clone, Copy, PartialEq, Eq)]
pub struct Number(pub u64);

impl fmt::Display for Number {
    fn fmt<W: fmt::Write>(&self, f: &mut fmt::Formatter<W>) -> fmt::Result {
        write!(f, "accepted, number {}", self.0)
    }
}

fn say<T: Copy + fmt::Display>(rt: &impl Print, answer: Result<T, Refusal>) -> io::Result<()> {
    match answer {
        Ok(value) => print!(rt; "{value}"),
        Err(why) => print!(rt; "{} {why}", u64::from(why)),
    }
}

pub fn line<T: Copy + PartialEq + fmt::Display>(
    rt: &impl Print,
    sentence: &str,
    got: Result<T, Refusal>,
    due: Result<T, Refusal>,
) -> io::Result<()> {
    print!(rt; "{sentence}: ")?;
    say(rt, got)?;
    if got != due {
        print!(rt; "; DOCUMENT 01 SAYS ")?;
        say(rt, due)?;
    }
    println!(rt; "")
}

pub fn refused<T: Copy + PartialEq + fmt::Display>(
    rt: &impl Print,
    sentence: &str,
    got: Result<T, Refusal>,
    why: Refusal,
) -> io::Result<()> {
    line(rt, sentence, got, Err(why))
}
