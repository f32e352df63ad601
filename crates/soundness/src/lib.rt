// Whether lent tables are a sound ledger: the check that comes before all else. For every function that takes the tables from outside.
// They come as three parameters, as C and the callers of `ledger` lend them; from here on they are a `Sound`.
#![tactic(auto)]

ghost use Rattle.ids.specs.Decides.{Decides};
ghost use Rattle.tables.specs.Fit.{Fit};
ghost use Rattle.tables.specs.Tables.{Standing, tables};
ghost use Rattle.soundness.specs.Checks.{Checks};

use records::Refusal;
use tables::Sound;

pub mod regions;

// Lengths first, then the head, on whose counts the other tests lean. The first fault ends the check, which only reads.
pub fn fit(book: &[[u64; 6]], keys: &[[u8; 32]], texts: &[u8]) -> bool
    ensures { Decides result (Fit (tables book.now keys.now texts.now)) }
{
    book.len() == 1089
        && keys.len() == 576
        && texts.len() == 32768
        && sound_keys::shapes::head_fits(book[0])
        && regions::rows_fit(book, keys)
        && regions::blank(book, keys, texts)
        && regions::ties_fit(book, keys)
}

// Yes exactly if the tables hold a sound ledger.
pub fn is_sound(book: &[[u64; 6]], keys: &[[u8; 32]], texts: &[u8]) -> bool
    ensures { Decides result (Standing (tables book.now keys.now texts.now)) }
{
    fit(book, keys, texts)
}

// The tables as those of a sound ledger, for the functions that are given such; or the refusal that comes before all others.
pub fn checked<'a>(
    book: &'a [[u64; 6]],
    keys: &'a [[u8; 32]],
    texts: &'a [u8],
) -> Result<Sound<'a>, Refusal>
    ensures { Checks book.entry keys.entry texts.entry result }
{
    if is_sound(book, keys, texts) {
        Ok(Sound { book, keys, texts })
    } else {
        Err(Refusal::Damaged)
    }
}
