// Why a run stops, and document 01's name for it.
ghost use Rattle.std.specs.Prelude.{◌≡◌, Some};
ghost use Rattle.fields.specs.Faults.{fault_text};

use std::fmt;

#[derive(Clone, Copy, PartialEq, Eq)]
pub enum Fault {
    MissingField,
    CutField,
    UnknownField,
    FieldOrder,
    FieldLength,
    BadRole,
    InputTooLong,
}

impl Fault {
    #[tactic(auto, unfolding(crate::specs::Faults::fault_text))]
    pub fn name(self) -> &'static str
        ensures { result.now ≡ fault_text self }
    {
        match self {
            Fault::MissingField => "MissingField",
            Fault::CutField => "CutField",
            Fault::UnknownField => "UnknownField",
            Fault::FieldOrder => "FieldOrder",
            Fault::FieldLength => "FieldLength",
            Fault::BadRole => "BadRole",
            Fault::InputTooLong => "InputTooLong",
        }
    }
}

impl fmt::Display for Fault {
    ghost output = { λ fault. Some (fault_text fault) };

    fn fmt<W: fmt::Write>(&self, f: &mut fmt::Formatter<W>) -> fmt::Result {
        f.write_str(self.name())
    }
}

// A fault, and its place in the input.
#[derive(Clone, Copy, PartialEq, Eq)]
pub struct Stop {
    pub fault: Fault,
    pub place: usize,
}
