// The reads as entries, and the check of the tables by itself. None changes a table.
ghost use Rattle.std.specs.Prelude.{◌≡◌};
ghost use Rattle.answers.specs.Does.{Does};
ghost use Rattle.capi.specs.Entries.{Flags, page_entry, status_entry};
ghost use Rattle.capi.specs.Outcomes.{status_number};
ghost use Rattle.tables.specs.Tables.{Standing, tables};

use crate::outcomes::Outcome;
use ids::RequestId;
use records::RequestStatus;

// A status by its place in `RequestStatus`.
fn number_of_status(status: RequestStatus) -> u64
    ensures { result ≡ status_number status }
{
    status as u64
}

#[unsafe(no_mangle)]
pub extern "C" fn brasstally_status(
    book: &[[u64; 6]],
    keys: &[[u8; 32]],
    texts: &[u8],
    request: u64,
) -> Outcome
    ensures { Does (status_entry request)
        (tables book.now keys.now texts.now)
        (tables book.now keys.now texts.now) result }
{
    let read = ledger::request_status(book, keys, texts, RequestId(request));
    Outcome::from(read.map(number_of_status))
}

#[unsafe(no_mangle)]
pub extern "C" fn brasstally_page(
    book: &[[u64; 6]],
    keys: &[[u8; 32]],
    texts: &[u8],
    from: u64,
    limit: u64,
    rows: &mut [[u64; 8]],
) -> Outcome
    ensures { Does (page_entry rows.old from limit)
        (tables book.now keys.now texts.now)
        (tables book.now keys.now texts.now)
        (record { outcome = result; rows = rows.new }) }
{
    Outcome::from(ledger::approvals_as_numbers(book, keys, texts, from, limit, rows))
}

// 1 if the tables hold a sound ledger, else 0.
#[unsafe(no_mangle)]
pub extern "C" fn brasstally_is_sound(book: &[[u64; 6]], keys: &[[u8; 32]], texts: &[u8]) -> u64
    ensures { Flags result (Standing (tables book.now keys.now texts.now)) }
{
    u64::from(soundness::is_sound(book, keys, texts))
}
