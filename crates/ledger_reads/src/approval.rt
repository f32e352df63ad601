// The proof of an approved request: its record, and its text where it lies.
ghost use Rattle.answers.specs.Calls.{approval_call};
ghost use Rattle.answers.specs.Does.{Part};
ghost use Rattle.answers.specs.Texts.{TextPart};
ghost use Rattle.ledger_reads.specs.Read.{ApprovedAt};
ghost use Rattle.tables.specs.Lent.{lent};
ghost use Rattle.tables.specs.Tables.{Standing, tables};

use ids::{Account, RegistrationId, RequestId};
use records::{ApprovalProof, BlockTime, Refusal};
use tables::Sound;

// The place of a request, if it is there and approved.
pub fn approved_at(sound: &Sound<'_>, request: RequestId) -> Option<usize>
    ensures { ApprovedAt (lent sound.now) request.0 result }
{
    if request.0 >= sound.book[0][3] {
        return None;
    }
    let n = request.0 as usize;
    let approved = sound.book[n + 321][0] == 1;
    if !approved {
        return None;
    }
    Some(n)
}

pub fn approval_sound(
    sound: &Sound<'_>,
    request: RequestId,
) -> Result<Option<ApprovalProof>, Refusal>
    ensures { Part (approval_call request) (lent sound.now) (lent sound.now) result }
{
    let Some(n) = approved_at(sound, request) else {
        return Ok(None);
    };
    let asked = sound.book[n + 65];
    let decided = sound.book[n + 321];
    Ok(Some(ApprovalProof {
        approval_index: decided[1],
        request_id: request,
        agent_account_id: Account(asked[0]),
        agent_key: sound.keys[n + 64],
        agent_registration_id: RegistrationId(asked[1]),
        requested_at: BlockTime {
            height: asked[4],
            timestamp_ns: asked[5],
        },
        approver_account_id: Account(decided[2]),
        approver_key: sound.keys[n + 320],
        approver_registration_id: RegistrationId(decided[3]),
        approved_at: BlockTime {
            height: decided[4],
            timestamp_ns: decided[5],
        },
    }))
}

// The very bytes of the text table; an empty part at its start where there is no proof. Callers hold it as long as `texts` alone, which one lifetime of a `Sound` cannot say.
pub fn approval_text_sound<'a>(
    book: &[[u64; 6]],
    keys: &[[u8; 32]],
    texts: &'a [u8],
    request: RequestId,
) -> &'a [u8]
    requires { Standing (tables book.now keys.now texts.now) }
    ensures { TextPart request.0 texts.entry
        (tables book.now keys.now texts.now) result }
{
    let Some(n) = approved_at(&Sound { book, keys, texts }, request) else {
        return &texts[..0];
    };
    let asked = book[n + 65];
    let start = asked[2] as usize;
    let end = start + asked[3] as usize;
    &texts[start..end]
}
