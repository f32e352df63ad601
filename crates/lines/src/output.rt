// A lent row of bytes that texts are written to, one after the other. For the lines, and for who lends the row.
ghost use Rattle.std.specs.Prelude.{◌≡◌, ◌≤◌, length, [], ◌∷◌, ◌++◌, take};
ghost use Rattle.lines.specs.Decimal.{decimal};
ghost use Rattle.lines.specs.Lines.{spaced};
ghost use Rattle.lines.specs.Output.{Appends};

use rows::change::put_bytes;

// The row, and where its next text goes. Texts are pushed: `write!` would promise its text only where it answers `Ok`, and a line stands always.
#[derive(Drop)]
pub struct Out<'a> {
    pub row: &'a mut [u8],
    pub at: usize,
}

impl Out<'_> {
    // What passes the row's end is left out.
    fn push_bytes(&mut self, bytes: &[u8])
        ensures { Appends bytes.now self.old self.new }
    {
        let room = self.row.len().saturating_sub(self.at);
        if room == 0 {
            return;
        }
        let n = bytes.len().min(room);
        put_bytes(self.row, self.at, &bytes[..n]);
        self.at += n;
    }

    pub(crate) fn push(&mut self, text: &str)
        ensures { Appends text.now self.old self.new }
    {
        self.push_bytes(text.as_bytes());
    }

    #[tactic(auto, using(crate::proofs::Decimal::number_text))]
    pub(crate) fn push_decimal(&mut self, n: u64)
        ensures { Appends (decimal n) self.old self.new }
    {
        let mut digits = [0; 20];
        let k = io::decimal(n, &mut digits);
        self.push_bytes(&digits[..k]);
    }

    // A text and a number.
    #[tactic(auto, using(crate::proofs::Appending::then_more))]
    pub(crate) fn push_counted(&mut self, text: &str, n: u64)
        ensures { Appends (text.now ++ decimal n) self.old self.new }
    {
        self.push(text);
        self.push_decimal(n);
    }

    // A space before each number.
    pub(crate) fn push_numbers(&mut self, numbers: &[u64])
        ensures { Appends (spaced numbers.now) self.old self.new }
    {
        for n in numbers {
            self.push_counted(" ", *n);
        }
    }
}
