// The reads but the page's: each is the check of the tables, and then its part. None changes a table.
ghost use Rattle.tables.specs.Tables.{tables};
ghost use Rattle.answers.specs.Does.{Does};
ghost use Rattle.answers.specs.Texts.{TextRead};
ghost use Rattle.answers.specs.Calls.{status_call, approval_call, revocations_call};

use ids::{RegistrationId, RequestId};
use records::{ApprovalProof, ProofRevocations, Refusal, RequestStatus};

pub fn request_status(
    book: &[[u64; 6]],
    keys: &[[u8; 32]],
    texts: &[u8],
    request: RequestId,
) -> Result<RequestStatus, Refusal>
    ensures { Does (status_call request)
        (tables book.now keys.now texts.now)
        (tables book.now keys.now texts.now) result }
{
    let sound = soundness::checked(book, keys, texts)?; // Damaged comes before RequestNotFound
    ledger_reads::status_sound(&sound, request)
}

// The proof of a request, if it was approved; its text is `approval_text`'s.
pub fn approval(
    book: &[[u64; 6]],
    keys: &[[u8; 32]],
    texts: &[u8],
    request: RequestId,
) -> Result<Option<ApprovalProof>, Refusal>
    ensures { Does (approval_call request)
        (tables book.now keys.now texts.now)
        (tables book.now keys.now texts.now) result }
{
    let sound = soundness::checked(book, keys, texts)?;
    ledger_reads::approval_sound(&sound, request)
}

// The text of an approved request, as the very part of the text table that holds it; an empty part where there is none.
pub fn approval_text<'a>(
    book: &[[u64; 6]],
    keys: &[[u8; 32]],
    texts: &'a [u8],
    request: RequestId,
) -> &'a [u8]
    ensures { TextRead request.0 texts.entry
        (tables book.now keys.now texts.now) result }
{
    if !soundness::is_sound(book, keys, texts) {
        return &texts[..0];
    }
    ledger_reads::approval_text_sound(book, keys, texts, request)
}

// When each of two registrations was revoked, if it was.
pub fn proof_revocations(
    book: &[[u64; 6]],
    keys: &[[u8; 32]],
    texts: &[u8],
    agent: RegistrationId,
    approver: RegistrationId,
) -> Result<ProofRevocations, Refusal>
    ensures { Does (revocations_call agent approver)
        (tables book.now keys.now texts.now)
        (tables book.now keys.now texts.now) result }
{
    let sound = soundness::checked(book, keys, texts)?;
    ledger_reads::revocations_sound(&sound, agent, approver)
}
