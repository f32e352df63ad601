// The proof of a request and the revocations behind it as entries, written to lent numbers and keys. Neither changes a table.
ghost use Rattle.std.specs.Prelude.{◌≡◌, get_or};
ghost use Rattle.answers.specs.Does.{Does};
ghost use Rattle.capi.specs.Entries.{TextPlace, proof_entry, revocations_entry};
ghost use Rattle.capi.specs.Outcomes.{ended_cells, outcome_of, proof_row};
ghost use Rattle.tables.specs.Lent.{lent};
ghost use Rattle.tables.specs.Tables.{tables};

use crate::outcomes::Outcome;
use ids::{RegistrationId, RequestId};
use records::{ApprovalProof, BlockTime, Refusal};
use tables::Sound;

// Where the text of an approved request lies: its start in the text table, and its length. Both are 0 for any other request.
fn text_place(sound: &Sound<'_>, request: RequestId) -> [u64; 2]
    ensures { TextPlace (lent sound.now) request.0 result }
{
    let Some(n) = ledger_reads::approved_at(sound, request) else {
        return [0, 0];
    };
    let asked = sound.book[n + 65];
    [asked[2], asked[3]]
}

fn numbers_of_proof(p: ApprovalProof, place: [u64; 2]) -> [u64; 12]
    ensures { result ≡ proof_row p (record { start = get_or place 0 0; len = get_or place 1 0 }) }
{
    [
        p.approval_index,
        p.request_id.0,
        p.agent_account_id.0,
        p.agent_registration_id.0,
        p.requested_at.height,
        p.requested_at.timestamp_ns,
        p.approver_account_id.0,
        p.approver_registration_id.0,
        p.approved_at.height,
        p.approved_at.timestamp_ns,
        place[0],
        place[1],
    ]
}

// What is lent, written; and the number, or the refusal.
fn written<'a>(
    book: &'a [[u64; 6]],
    keys: &'a [[u8; 32]],
    texts: &'a [u8],
    request: u64,
    row: &mut [u64; 12],
    agent_key: &mut [u8; 32],
    approver_key: &mut [u8; 32],
) -> Result<u64, Refusal>
    ensures { Does (proof_entry row.old agent_key.old approver_key.old request)
        (tables book.now keys.now texts.now)
        (tables book.now keys.now texts.now)
        (record { outcome = outcome_of result; row = row.new; agent = agent_key.new; approver = approver_key.new }) }
{
    let sound = soundness::checked(book, keys, texts)?;
    let request = RequestId(request);
    let Some(proof) = ledger_reads::approval_sound(&sound, request)? else {
        return Ok(0);
    };
    let (agent, approver) = (proof.agent_key, proof.approver_key);
    *row = numbers_of_proof(proof, text_place(&sound, request));
    *agent_key = agent;
    *approver_key = approver;
    Ok(1)
}

// The number is 1 if the request has a proof, else 0; without one, what is lent stays as it was.
#[unsafe(no_mangle)]
pub extern "C" fn brasstally_proof(
    book: &[[u64; 6]],
    keys: &[[u8; 32]],
    texts: &[u8],
    request: u64,
    row: &mut [u64; 12],
    agent_key: &mut [u8; 32],
    approver_key: &mut [u8; 32],
) -> Outcome
    ensures { Does (proof_entry row.old agent_key.old approver_key.old request)
        (tables book.now keys.now texts.now)
        (tables book.now keys.now texts.now)
        (record { outcome = result; row = row.new; agent = agent_key.new; approver = approver_key.new }) }
{
    Outcome::from(written(book, keys, texts, request, row, agent_key, approver_key))
}

// Whether a registration was revoked, and when.
fn cells_of_end(end: Option<BlockTime>) -> [u64; 3]
    ensures { result ≡ ended_cells end }
{
    match end {
        None => [0, 0, 0],
        Some(t) => [1, t.height, t.timestamp_ns],
    }
}

// First the agent's three numbers, then the approver's.
#[unsafe(no_mangle)]
pub extern "C" fn brasstally_revocations(
    book: &[[u64; 6]],
    keys: &[[u8; 32]],
    texts: &[u8],
    agent: u64,
    approver: u64,
    row: &mut [u64; 6],
) -> Outcome
    ensures { Does (revocations_entry row.old agent approver)
        (tables book.now keys.now texts.now)
        (tables book.now keys.now texts.now)
        (record { outcome = result; row = row.new }) }
{
    let (agent, approver) = (RegistrationId(agent), RegistrationId(approver));
    match ledger::proof_revocations(book, keys, texts, agent, approver) {
        Ok(both) => {
            row[..3].copy_from_slice(&cells_of_end(both.agent));
            row[3..].copy_from_slice(&cells_of_end(both.approver));
            Outcome::from(Ok(0))
        }
        Err(why) => Outcome::from(Err(why)),
    }
}
