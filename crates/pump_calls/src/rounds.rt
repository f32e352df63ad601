// Calls made again and again, to fill a room. Each gives what its last call came to, or the first refusal. For the scenes.
use crate::desk::Desk;
use crate::people;
use crate::tell::Number;
use records::{Refusal, Role};

impl Desk {
    // A requests the same action, n times.
    pub fn requests(&mut self, action: &[u8], n: u64) -> Result<Number, Refusal> {
        let mut last = Number(0);
        for _ in 0..n {
            last = self.request(people::a(), action)?;
        }
        Ok(last)
    }

    // A requests and B approves, n times from a ledger without requests.
    pub fn approvals(&mut self, n: u64) -> Result<Number, Refusal> {
        let mut last = Number(0);
        for i in 0..n {
            self.request(people::a(), b"maxrate=50")?;
            last = self.approve(people::b(), i, b"maxrate=50")?;
        }
        Ok(last)
    }

    // Adds agents 0 to n - 1, of whom the first leave, so that no more than 64 stay.
    pub fn adds(&mut self, n: u64) -> Result<Number, Refusal> {
        let mut last = Number(0);
        for i in 0..n {
            if 64 <= i {
                self.revoke(people::agent(i - 64))?;
            }
            last = self.add(7, people::agent(i), Role::Agent)?;
        }
        Ok(last)
    }
}
