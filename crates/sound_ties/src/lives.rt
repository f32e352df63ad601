// Whether each request and the registered keys agree on whose it is: a search over the keys for each request whose registration is in force no more.
ghost use Rattle.std.specs.Prelude.{◌≤◌, ◌<◌, length};
ghost use Rattle.ids.specs.Decides.{Decides};
ghost use Rattle.tables.specs.Fit.{OwnFits, Lived};
ghost use Rattle.sound_ties.specs.Places.{Places, Younger};

use crate::used::{Asked, Holders};
use rows::compare::same_key;

// The registered keys and the requests, each row with its key.
#[derive(Clone, Copy)]
pub struct Parties<'a> {
    pub holders: Holders<'a>,
    pub held: &'a [[u8; 32]],
    pub asked: Asked<'a>,
    pub agents: &'a [[u8; 32]],
    ghost keys: { length holders.rows.now ≤ length held.now },
    ghost signers: { length asked.rows.now ≤ length agents.now },
}

impl<'a> Parties<'a> {
    // Request n, whose registration is key i's: made under that key, by its account, as an Agent's, since the key was added.
    fn own_fits(&self, n: usize, i: usize) -> bool
        requires { (n < length self.now.asked.rows.now) × (i < length self.now.holders.rows.now) }
        ensures { Decides result (OwnFits n i self.now.holders.rows.now self.now.held.now self.now.asked.rows.now self.now.agents.now) }
    {
        let [account, role, _, active_from, ..] = self.holders.rows[i];
        role == 0
            && account == self.asked.rows[n][0]
            && active_from <= n as u64
            && same_key(&self.held[i], &self.agents[n])
    }

    // Whether key i, if it is request n's, is younger than the request. The number is compared first: it is cheaper than a key.
    fn younger(&self, n: usize, i: usize) -> bool
        requires { (n < length self.now.asked.rows.now) × (i < length self.now.holders.rows.now) }
        ensures { Decides result (Younger self.now.holders.rows.now self.now.held.now self.now.agents.now n i) }
    {
        self.holders.rows[i][3] > n as u64 || !same_key(&self.held[i], &self.agents[n])
    }

    // The first request at fault ends both loops.
    pub fn lived(&self, place: &[Option<usize>; 256]) -> bool
        requires { Places (length self.now.holders.rows.now) self.now.holders.rows.now place.now }
        ensures { Decides result (Lived (length self.now.holders.rows.now) (length self.now.asked.rows.now) self.now.holders.rows.now self.now.held.now self.now.asked.rows.now self.now.agents.now) }
    {
        'requests: {
            for (n, row) in self.asked.rows.iter().enumerate() {
                match place[row[1] as usize] {
                    Some(i) => {
                        if !self.own_fits(n, i) {
                            break 'requests false;
                        }
                    }
                    None => {
                        for i in 0..self.holders.rows.len() {
                            if !self.younger(n, i) {
                                break 'requests false;
                            }
                        }
                    }
                }
            }
            true
        }
    }
}
