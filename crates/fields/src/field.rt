// The fields of a value, read one after the other by document 01's rules in their order. For the readers of the kinds.
ghost use Rattle.std.specs.Prelude.{◌≡◌, false, ◌+◌, ◌<◌, ◌≤◌, ◌^◌, length};
ghost use Rattle.fields.specs.Numbers.{number};
ghost use Rattle.fields.specs.Fields.{known, wrong_length, bad_role};

use crate::fault::{Fault, Stop};
use crate::number::number_in;

// Whether a tag is a kind's or a field's.
#[tactic(auto, unfolding(crate::specs::Fields::known))]
fn is_known(tag: u8) -> bool
    ensures { result ≡ known tag }
{
    matches!(tag, 0x01..=0x08 | 0x10..=0x13 | 0x15..=0x1A)
}

// What a field's value may be.
#[derive(Clone, Copy)]
pub enum Form {
    Exactly(usize),
    AnyLength,
    RoleByte,
}

impl Form {
    // Rule six.
    fn is_wrong_length(self, len: usize) -> bool
        ensures { result ≡ wrong_length self len }
    {
        match self {
            Form::Exactly(n) => len != n,
            Form::AnyLength => false,
            Form::RoleByte => len != 1,
        }
    }

    // Rule seven.
    fn is_bad_role(self, part: &[u8]) -> bool
        requires { wrong_length self (length part.now) ≡ false }
        ensures { result ≡ bad_role self (number part.now) }
    {
        match self {
            Form::Exactly(_) | Form::AnyLength => false,
            Form::RoleByte => number_in(part) > 1,
        }
    }
}

// The bytes left in the enclosing value, and the first one's place in the input; where none is left, the place of the value's end.
#[derive(Clone, Copy)]
pub struct Fields<'a> {
    pub rest: &'a [u8],
    pub place: usize,
    ghost fits: { place + length rest.now < 2 ^ 64 },
}

impl<'a> Fields<'a> {
    ghost use Rattle.fields.specs.Fields.{◌holds◌, field, finish};
    ghost use Rattle.fields.specs.Parts.{TagRead, PartRead, Gives, Sized, bytes};

    // A fault here.
    pub fn stop(&self, fault: Fault) -> Stop
        ensures { result ≡ record { fault = fault; place = self.now.place } }
    {
        Stop {
            fault,
            place: self.place,
        }
    }

    // The tag, by rules two and three.
    pub fn tag(&self) -> Result<u8, Stop>
        ensures { TagRead self.now result }
    {
        if self.rest.len() < 3 {
            return Err(self.stop(Fault::CutField));
        }
        let tag = self.rest[0];
        if !is_known(tag) {
            return Err(self.stop(Fault::UnknownField));
        }
        Ok(tag)
    }

    // The value, by rule five.
    pub fn part(&self) -> Result<&'a [u8], Stop>
        requires { 3 ≤ length self.now.rest.now }
        ensures { PartRead self.now result }
    {
        let len = number_in(&self.rest[1..3]) as usize;
        if self.rest.len() - 3 < len {
            return Err(self.stop(Fault::CutField));
        }
        Ok(&self.rest[3..3 + len])
    }

    // A field due: rules one to seven.
    #[tactic(auto, unfolding(crate::specs::Fields::field))]
    pub fn field(&mut self, due: u8, form: Form) -> Result<&'a [u8], Stop>
        ensures reads { Gives bytes (field (due holds form)) self.old self.new result }
        ensures sized { Sized form result }
    {
        if self.rest.is_empty() {
            return Err(self.stop(Fault::MissingField));
        }
        if self.tag()? != due {
            return Err(self.stop(Fault::FieldOrder));
        }
        let part = self.part()?;
        if form.is_wrong_length(part.len()) {
            return Err(self.stop(Fault::FieldLength));
        }
        if form.is_bad_role(part) {
            return Err(self.stop(Fault::BadRole));
        }
        let taken = 3 + part.len();
        self.rest = &self.rest[taken..];
        self.place += taken;
        Ok(part)
    }

    // What stands after the last field due: nothing, or a fault by rules two to four.
    #[tactic(auto, unfolding(crate::specs::Fields::finish))]
    pub fn finish(&self) -> Result<(), Stop>
        ensures { Gives (λ done. tt) finish self.now self.now result }
    {
        if self.rest.is_empty() {
            return Ok(());
        }
        self.tag()?;
        Err(self.stop(Fault::FieldOrder))
    }
}
