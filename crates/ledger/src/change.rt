// The five changes: each is the check of the tables, and then its part; one function over the part would be no plainer than these two lines.
// The tables stay three parameters here and in the reads: C lends each by itself, and adding and revoking lend the texts shared, so a struct of loans would ask more.
ghost use Rattle.tables.specs.Tables.{tables};
ghost use Rattle.answers.specs.Does.{Does};
ghost use Rattle.answers.specs.Calls.{add_call, revoke_call, request_call, approve_call, reject_call};

use ids::{Account, Key, RequestId};
use records::{ActionRequest, ApprovalProof, BlockTime, Caller, Principal, Refusal, Role};

// Registers a key for an account: the owner alone may. Gives the registration.
pub fn add_principal(
    book: &mut [[u64; 6]],
    keys: &mut [[u8; 32]],
    texts: &[u8],
    caller: Account,
    key: Key,
    account: Account,
    role: Role,
) -> Result<Principal, Refusal>
    ensures { Does (add_call caller key account role)
        (tables book.old keys.old texts.now)
        (tables book.new keys.new texts.now) result }
{
    soundness::checked(book, keys, texts)?;
    ledger_keys::add_sound(book, keys, texts, caller, key, account, role)
}

// Ends a key's registration: the owner alone may. Gives the registration that was ended.
pub fn revoke_key(
    book: &mut [[u64; 6]],
    keys: &mut [[u8; 32]],
    texts: &[u8],
    caller: Account,
    key: Key,
    time: BlockTime,
) -> Result<Principal, Refusal>
    ensures { Does (revoke_call caller key time)
        (tables book.old keys.old texts.now)
        (tables book.new keys.new texts.now) result }
{
    soundness::checked(book, keys, texts)?;
    ledger_revocations::revoke_sound(book, keys, texts, caller, key, time)
}

// Asks for an action, under an agent's key. Gives the request.
pub fn request_action(
    book: &mut [[u64; 6]],
    keys: &mut [[u8; 32]],
    texts: &mut [u8],
    caller: Caller,
    action: &[u8],
    time: BlockTime,
) -> Result<ActionRequest, Refusal>
    ensures { Does (request_call caller action.now time)
        (tables book.old keys.old texts.old)
        (tables book.new keys.new texts.new) result }
{
    soundness::checked(book, keys, texts)?;
    ledger_requests::request_sound(book, keys, texts, caller, action, time)
}

// Approves a Pending request whose text is `action`, under an approver's key of another account. Gives the proof.
pub fn approve(
    book: &mut [[u64; 6]],
    keys: &mut [[u8; 32]],
    texts: &mut [u8],
    caller: Caller,
    request: RequestId,
    action: &[u8],
    time: BlockTime,
) -> Result<ApprovalProof, Refusal>
    ensures { Does (approve_call caller request action.now time)
        (tables book.old keys.old texts.old)
        (tables book.new keys.new texts.new) result }
{
    soundness::checked(book, keys, texts)?;
    ledger_approvals::approve_sound(book, keys, texts, caller, request, action, time)
}

// Rejects a Pending request, under an approver's key of another account. Gives the request.
pub fn reject(
    book: &mut [[u64; 6]],
    keys: &mut [[u8; 32]],
    texts: &mut [u8],
    caller: Caller,
    request: RequestId,
    time: BlockTime,
) -> Result<ActionRequest, Refusal>
    ensures { Does (reject_call caller request time)
        (tables book.old keys.old texts.old)
        (tables book.new keys.new texts.new) result }
{
    soundness::checked(book, keys, texts)?;
    ledger_rejections::reject_sound(book, keys, texts, caller, request, time)
}
