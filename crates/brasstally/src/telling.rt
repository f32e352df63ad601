// What the program prints, as a function with a promise: only reading and writing are left to the runtime. For `main`.
ghost use Rattle.std.specs.Prelude.{true, ◌≤◌, length};
ghost use Rattle.io.specs.Counts.{IsPrefixLen};
ghost use Rattle.lines.specs.Output.{Wrote};
ghost use Rattle.replay.specs.Run.{Prints, lines_room, output, whole};

// A run on tables of its own: its lines at the front of `out`, whole where the row has room for those of every run, and how many bytes they are.
pub fn tell(input: &[u8], out: &mut [u8]) -> usize
    ensures writes { Wrote out.old (output (whole true input.now)) out.new result }
    ensures prints { lines_room ≤ length out.old → Prints input.now out.new result }
    ensures prefix_len { IsPrefixLen result out.new }
{
    let mut t = rooms::Tables::new();
    let ran = replay::run(&mut t.book, &mut t.keys, &mut t.texts, input, out);
    ran.wrote
}

// The same in a row that has room for the lines of every run: whole. For the program.
pub fn tell_whole(input: &[u8], out: &mut [u8]) -> usize
    requires { lines_room ≤ length out.old }
    ensures prints { Prints input.now out.new result }
    ensures prefix_len { IsPrefixLen result out.new }
{
    tell(input, out)
}
