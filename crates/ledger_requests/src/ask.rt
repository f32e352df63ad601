// A new request: the source's `request`.
ghost use Rattle.std.specs.Prelude.{◌≡◌, length, set};
ghost use Rattle.std.proofs.Math.Seq.{paste};
ghost use Rattle.answers.specs.Calls.{request_call};
ghost use Rattle.answers.specs.Does.{Part};
ghost use Rattle.tables.specs.Parts.{request_count, text_used};
ghost use Rattle.tables.specs.Tables.{Standing, tables};
ghost use Rattle.ledger_requests.specs.Stores.{Stored, Storable};

use crate::told::request_of;
use ids::{Key, RequestId};
use ledger_callers::authenticate;
use records::{ActionRequest, BlockTime, Caller, Refusal, Role};
use rows::change::put_bytes;
use tables::Sound;

// Stores the next request, of the key at place i. Its decided row and its approver's key are zero already.
fn store(
    book: &mut [[u64; 6]],
    keys: &mut [[u8; 32]],
    texts: &mut [u8],
    i: usize,
    asked: [u64; 6],
    key: Key,
    action: &[u8],
)
    requires { Storable (tables book.old keys.old texts.old) i (length action.now) }
    ensures { Stored
        (tables book.old keys.old texts.old) i asked key action.now
        (tables book.new keys.new texts.new) }
{
    let mut head = book[0];
    let n = head[3] as usize;
    let used = head[5];
    let mut holder = book[i + 1];
    put_bytes(texts, used as usize, action);
    keys[n + 64] = key;
    book[n + 65] = asked;
    holder[4] += 1;
    book[i + 1] = holder;
    head[3] += 1;
    head[5] = used + action.len() as u64;
    book[0] = head;
}

// Document 01's 2, 3, 4, 5, 8, 9, 10, 17, 19, in that order.
pub fn request_sound(
    book: &mut [[u64; 6]],
    keys: &mut [[u8; 32]],
    texts: &mut [u8],
    caller: Caller,
    action: &[u8],
    time: BlockTime,
) -> Result<ActionRequest, Refusal>
    requires { Standing (tables book.old keys.old texts.old) }
    ensures { Part (request_call caller action.now time)
        (tables book.old keys.old texts.old)
        (tables book.new keys.new texts.new) result }
{
    let i = authenticate(&Sound { book, keys, texts }, caller, Role::Agent)?;
    if action.is_empty() {
        return Err(Refusal::EmptyAction);
    }
    if action.len() > 2048 {
        return Err(Refusal::ActionTooLong);
    }
    let holder = book[i + 1];
    if holder[4] >= 16 {
        return Err(Refusal::TooManyPending);
    }
    let head = book[0];
    if head[3] >= 256 {
        return Err(Refusal::LogFull);
    }
    let len = action.len() as u64;
    if head[5] + len > 32768 {
        return Err(Refusal::TextFull);
    }
    let key = caller.signer_key;
    let asked = [
        caller.signer.0,
        holder[2],
        head[5],
        len,
        time.height,
        time.timestamp_ns,
    ];
    store(book, keys, texts, i, asked, key, action);
    Ok(request_of(RequestId(head[3]), asked, key, None))
}
