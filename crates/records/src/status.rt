// Where a request stands, and the source's name for it.
ghost use Rattle.std.specs.Prelude.{◌≡◌, Some};
ghost use Rattle.records.specs.Statuses.{status_text};

use std::fmt;

#[derive(Clone, Copy, PartialEq, Eq)]
pub enum RequestStatus {
    Pending,
    Approved,
    Rejected,
    Void,
}

impl RequestStatus {
    #[tactic(auto, unfolding(crate::specs::Statuses::status_text))]
    pub fn name(self) -> &'static str
        ensures { result.now ≡ status_text self }
    {
        match self {
            RequestStatus::Pending => "Pending",
            RequestStatus::Approved => "Approved",
            RequestStatus::Rejected => "Rejected",
            RequestStatus::Void => "Void",
        }
    }
}

impl fmt::Display for RequestStatus {
    ghost output = { λ status. Some (status_text status) };

    fn fmt<W: fmt::Write>(&self, f: &mut fmt::Formatter<W>) -> fmt::Result {
        f.write_str(self.name())
    }
}
