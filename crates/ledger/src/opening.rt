// Opening: the empty sound ledger of an owner, in tables of the right lengths, whatever they held.
ghost use Rattle.tables.specs.Tables.{tables};
ghost use Rattle.answers.specs.Does.{Opens};

use ids::Account;
use records::Refusal;
use rows::change::clear;

pub fn open(
    book: &mut [[u64; 6]],
    keys: &mut [[u8; 32]],
    texts: &mut [u8],
    owner: Account,
) -> Result<(), Refusal>
    ensures { Opens owner.0
        (tables book.old keys.old texts.old)
        (tables book.new keys.new texts.new) result }
{
    if book.len() != 1089 || keys.len() != 576 || texts.len() != 32768 {
        return Err(Refusal::Damaged);
    }
    clear(book, [0; 6]);
    clear(keys, [0; 32]);
    clear(texts, 0);
    book[0][0] = owner.0;
    Ok(())
}
