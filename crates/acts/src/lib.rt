// One command of the file done on lent tables, through the public ledger alone: each kind by its call. For `replay`.
// A `match` picks the call, since each kind has arguments of its own: a table of closures would be no plainer.
#![tactic(auto)]

ghost use Rattle.std.specs.Prelude.{◌≡◌, map};
ghost use Rattle.tables.specs.Tables.{tables};
ghost use Rattle.commands.specs.Answers.{meant};
ghost use Rattle.commands.specs.Commands.{page_from};
ghost use Rattle.lines.specs.Replies.{told};
ghost use Rattle.acts.specs.Acts.{Acts, request_of};

use commands::{Command, PageCommand};
use lines::Reply;
use records::{PageEntry, Refusal};

// The request numbers of a page's entries.
fn list_requests(entries: &[PageEntry; 100], requests: &mut [u64; 100])
    ensures { requests.new ≡ map request_of entries.now }
{
    for (k, request) in requests.iter_mut().enumerate() {
        *request = entries[k].request_id.0;
    }
}

// A page has at most 100 entries, so that a row of its own holds those of any page.
fn page<'a>(
    book: &[[u64; 6]],
    keys: &[[u8; 32]],
    texts: &[u8],
    c: PageCommand,
    requests: &'a mut [u64; 100],
) -> Result<Reply<'a>, Refusal>
    ensures { Acts (page_from c.from c.limit)
        (tables book.now keys.now texts.now)
        (tables book.now keys.now texts.now) (told result) }
{
    let mut entries = [PageEntry::default(); 100];
    let count = ledger::approvals(book, keys, texts, c.from, c.limit, &mut entries)?;
    list_requests(&entries, requests);
    Ok(Reply::Page { count, requests })
}

// A page's request numbers are left in `requests`.
pub fn act<'a>(
    book: &mut [[u64; 6]],
    keys: &mut [[u8; 32]],
    texts: &mut [u8],
    command: Command<'_>,
    requests: &'a mut [u64; 100],
) -> Result<Reply<'a>, Refusal>
    ensures { Acts (meant command.entry)
        (tables book.old keys.old texts.old)
        (tables book.new keys.new texts.new) (told result) }
{
    match command {
        Command::Open(owner) => {
            ledger::open(book, keys, texts, owner)?;
            Ok(Reply::Done)
        }
        Command::Add(c) => {
            let made = ledger::add_principal(
                book, keys, texts, c.caller, c.key, c.account, c.role,
            )?;
            Ok(Reply::Number(made.registration_id.0))
        }
        Command::Revoke(c) => {
            let ended = ledger::revoke_key(book, keys, texts, c.caller, c.key, c.now)?;
            Ok(Reply::Number(ended.registration_id.0))
        }
        Command::Request(c) => {
            let asked = ledger::request_action(book, keys, texts, c.caller, c.text, c.now)?;
            Ok(Reply::Number(asked.id.0))
        }
        Command::Approve(c) => {
            let approved = ledger::approve(book, keys, texts, c.caller, c.request, c.text, c.now)?;
            Ok(Reply::Number(approved.approval_index))
        }
        Command::Reject(c) => {
            let rejected = ledger::reject(book, keys, texts, c.caller, c.request, c.now)?;
            Ok(Reply::Number(rejected.id.0))
        }
        Command::Status(request) => {
            let status = ledger::request_status(book, keys, texts, request)?;
            Ok(Reply::Status(status))
        }
        Command::Page(c) => page(book, keys, texts, c, requests),
    }
}
