// The rows in use of a table whose rows name registrations. For the tests of what rows say of one another.
ghost use Rattle.sound_ties.specs.Places.{Numbered};

// Each row has in column C the number of its registration, below the room of 256.
#[derive(Clone, Copy)]
pub struct Used<'a, const C: usize> {
    pub rows: &'a [[u64; 6]],
    ghost numbered: { Numbered C rows.now },
}

// The registered keys' rows, and the requests'.
pub type Holders<'a> = Used<'a, 2>;

pub type Asked<'a> = Used<'a, 1>;
