// A page of the log, written to a lent row of records or of plain numbers.
ghost use Rattle.std.specs.Prelude.{◌≡◌, ◌<◌};
ghost use Rattle.answers.specs.Answers.{as_is, entry_row};
ghost use Rattle.answers.specs.Calls.{page_call};
ghost use Rattle.answers.specs.Does.{Part};
ghost use Rattle.ledger_pages.specs.Pages.{SlotEntry, size_of_page};
ghost use Rattle.records.specs.declared.PageEntry.{PageEntry};
ghost use Rattle.tables.specs.Lent.{lent};
ghost use Rattle.tables.specs.Parts.{log_count};

use ids::{RegistrationId, RequestId};
use records::{BlockTime, PageEntry, Refusal};
use tables::Sound;

// A place of a lent row: what it holds of an entry.
pub trait Place: Copy {
    ghost of_entry: { PageEntry → Self };

    fn of(entry: PageEntry) -> Self
        ensures { result ≡ of_entry entry };
}

impl Place for PageEntry {
    ghost of_entry = { as_is };

    fn of(entry: PageEntry) -> PageEntry {
        entry
    }
}

// For C: slot, request, agent's and approver's registrations, time of the request, time of the approval.
impl Place for [u64; 8] {
    ghost of_entry = { entry_row };

    fn of(entry: PageEntry) -> [u64; 8] {
        [
            entry.slot,
            entry.request_id.0,
            entry.agent_registration_id.0,
            entry.approver_registration_id.0,
            entry.requested_at.height,
            entry.requested_at.timestamp_ns,
            entry.approved_at.height,
            entry.approved_at.timestamp_ns,
        ]
    }
}

// How many of `count` slots a page has. What is left of the log is compared with the limit, so that no sum can pass the largest number.
fn page_size(count: u64, from: u64, limit: u64) -> u64
    ensures { result ≡ size_of_page count from limit }
{
    count.saturating_sub(from).min(limit).min(100)
}

// The entry of slot j.
#[tactic(auto, using(crate::proofs::Slots::slot_inside))]
fn entry_at(sound: &Sound<'_>, j: usize) -> PageEntry
    requires { j < log_count (lent sound.now) }
    ensures { SlotEntry (lent sound.now) j result }
{
    let n = sound.book[j + 833][0];
    let asked = sound.book[n as usize + 65];
    let decided = sound.book[n as usize + 321];
    PageEntry {
        slot: j as u64,
        request_id: RequestId(n),
        agent_registration_id: RegistrationId(asked[1]),
        approver_registration_id: RegistrationId(decided[3]),
        requested_at: BlockTime {
            height: asked[4],
            timestamp_ns: asked[5],
        },
        approved_at: BlockTime {
            height: decided[4],
            timestamp_ns: decided[5],
        },
    }
}

// How many entries the page has, written to the front of `rows`, whose other places stay.
pub fn page_sound<P: Place>(
    sound: &Sound<'_>,
    from: u64,
    limit: u64,
    rows: &mut [P],
) -> Result<u64, Refusal>
    ensures { Part (page_call P.of_entry rows.old from limit)
        (lent sound.now) (lent sound.now)
        (record { answer = result; rows = rows.new }) }
{
    let size = page_size(sound.book[0][4], from, limit);
    if (rows.len() as u64) < size {
        return Err(Refusal::PageRoom);
    }
    for (k, row) in rows[..size as usize].iter_mut().enumerate() {
        *row = P::of(entry_at(sound, from as usize + k));
    }
    Ok(size)
}
