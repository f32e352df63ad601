// A page of the log, as records in a lent row, as a record that holds them, and as rows of plain numbers, for C. None changes a table.
ghost use Rattle.answers.specs.Answers.{as_is, entry_row};
ghost use Rattle.answers.specs.Calls.{page_call, page_in_call};
ghost use Rattle.answers.specs.Does.{Does};
ghost use Rattle.tables.specs.Tables.{tables};

use answers::Page;
use records::{PageEntry, Refusal};

// The page, written to the front of `page`, whose other records stay. Answers how many entries it has.
pub fn approvals(
    book: &[[u64; 6]],
    keys: &[[u8; 32]],
    texts: &[u8],
    from: u64,
    limit: u64,
    page: &mut [PageEntry],
) -> Result<u64, Refusal>
    ensures { Does (page_call as_is page.old from limit)
        (tables book.now keys.now texts.now)
        (tables book.now keys.now texts.now)
        (record { answer = result; rows = page.new }) }
{
    let sound = soundness::checked(book, keys, texts)?;
    ledger_pages::page_sound(&sound, from, limit, page)
}

// The page in a record of its own, whose other entries are all zero.
pub fn approvals_page(
    book: &[[u64; 6]],
    keys: &[[u8; 32]],
    texts: &[u8],
    from: u64,
    limit: u64,
) -> Result<Page, Refusal>
    ensures { Does (page_in_call from limit)
        (tables book.now keys.now texts.now)
        (tables book.now keys.now texts.now) result }
{
    let mut entries = [PageEntry::default(); 100];
    let count = approvals(book, keys, texts, from, limit, &mut entries)?;
    Ok(Page { count, entries })
}

// A page of the log, as rows of plain numbers at the front of `rows`: slot, request, both registrations, both times.
pub fn approvals_as_numbers(
    book: &[[u64; 6]],
    keys: &[[u8; 32]],
    texts: &[u8],
    from: u64,
    limit: u64,
    rows: &mut [[u64; 8]],
) -> Result<u64, Refusal>
    ensures { Does (page_call entry_row rows.old from limit)
        (tables book.now keys.now texts.now)
        (tables book.now keys.now texts.now)
        (record { answer = result; rows = rows.new }) }
{
    let sound = soundness::checked(book, keys, texts)?;
    ledger_pages::page_sound(&sound, from, limit, rows)
}
