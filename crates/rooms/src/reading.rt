// Input into a lent row. For programs that read.
ghost use Rattle.std.specs.Prelude.{◌≤◌, length, IfOk};

use std::io;
use std::io::Read;

// Reads until the row is full or the input ends, and says how many bytes came: `read_exact` would call that end an error.
pub fn read_full<R: Read>(from: &mut R, row: &mut [u8]) -> io::Result<usize>
    ensures { IfOk result (λ n. n ≤ length row.new) }
{
    let mut done = 0;
    while done < row.len() {
        let n = from.read(&mut row[done..])?;
        if n == 0 {
            break;
        }
        done += n;
    }
    Ok(done)
}
