// A whole command file as an entry: the run's lines go to a lent row of bytes.
ghost use Rattle.capi.specs.Files.{RunTold};
ghost use Rattle.tables.specs.Tables.{tables};

use crate::outcomes::Outcome;

// Never refused; the number is that of the bytes written. What passes the end of `out` is left out.
#[unsafe(no_mangle)]
pub extern "C" fn brasstally_replay(
    book: &mut [[u64; 6]],
    keys: &mut [[u8; 32]],
    texts: &mut [u8],
    input: &[u8],
    out: &mut [u8],
) -> Outcome
    ensures { RunTold input.now
        (tables book.old keys.old texts.old)
        (tables book.new keys.new texts.new)
        out.old out.new result }
{
    let ran = replay::run(book, keys, texts, input, out);
    Outcome {
        refusal: 0,
        number: ran.wrote as u64,
    }
}
