// Answers as hosts get them: two plain numbers. For the entries.
ghost use Rattle.std.specs.Prelude.{◌≡◌};
ghost use Rattle.capi.specs.Outcomes.{outcome_of};

use records::Refusal;

// The C interface: refusal 0 is none, and beside a refusal the number is 0.
#[repr(C)]
#[derive(Clone, Copy)]
pub struct Outcome {
    pub refusal: u64,
    pub number: u64,
}

impl From<Result<u64, Refusal>> for Outcome {
    ghost from_gives = { λ answer outcome. outcome ≡ outcome_of answer };

    fn from(answer: Result<u64, Refusal>) -> Outcome {
        match answer {
            Ok(number) => Outcome { refusal: 0, number },
            Err(why) => Outcome {
                refusal: u64::from(why),
                number: 0,
            },
        }
    }
}
