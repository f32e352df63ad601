// Opening and the five changes as entries: each is the ledger's own call, with its answer as an outcome.
ghost use Rattle.std.specs.Prelude.{◌≡◌};
ghost use Rattle.answers.specs.Does.{Does};
ghost use Rattle.capi.specs.Entries.{OpensTold, add_entry, approve_entry, block_time, caller_of, reject_entry, request_entry, revoke_entry};
ghost use Rattle.tables.specs.Tables.{tables};

use crate::outcomes::Outcome;
use ids::{Account, RequestId};
use records::{BlockTime, Caller, Role};

#[unsafe(no_mangle)]
pub extern "C" fn brasstally_open(
    book: &mut [[u64; 6]],
    keys: &mut [[u8; 32]],
    texts: &mut [u8],
    owner: u64,
) -> Outcome
    ensures { OpensTold owner
        (tables book.old keys.old texts.old)
        (tables book.new keys.new texts.new) result }
{
    Outcome::from(ledger::open(book, keys, texts, Account(owner)).map(|()| 0))
}

// Role 0 is Agent, 1 Approver; any other number is refused with 255, after 20.
#[unsafe(no_mangle)]
pub extern "C" fn brasstally_add(
    book: &mut [[u64; 6]],
    keys: &mut [[u8; 32]],
    texts: &[u8],
    caller: u64,
    key: &[u8; 32],
    account: u64,
    role: u64,
) -> Outcome
    ensures { Does (add_entry caller key.now account role)
        (tables book.old keys.old texts.now)
        (tables book.new keys.new texts.now) result }
{
    if role > 1 {
        return match soundness::checked(book, keys, texts) {
            Ok(_) => Outcome {
                refusal: 255,
                number: 0,
            },
            Err(why) => Outcome::from(Err(why)),
        };
    }
    let (caller, account, role) = (Account(caller), Account(account), Role::from(role));
    let added = ledger::add_principal(book, keys, texts, caller, *key, account, role);
    Outcome::from(added.map(|p| p.registration_id.0))
}

#[unsafe(no_mangle)]
pub extern "C" fn brasstally_revoke(
    book: &mut [[u64; 6]],
    keys: &mut [[u8; 32]],
    texts: &[u8],
    caller: u64,
    key: &[u8; 32],
    height: u64,
    timestamp: u64,
) -> Outcome
    ensures { Does (revoke_entry caller key.now height timestamp)
        (tables book.old keys.old texts.now)
        (tables book.new keys.new texts.now) result }
{
    let time = time_at(height, timestamp);
    let ended = ledger::revoke_key(book, keys, texts, Account(caller), *key, time);
    Outcome::from(ended.map(|p| p.registration_id.0))
}

// When, from the numbers that a host gives.
fn time_at(height: u64, timestamp: u64) -> BlockTime
    ensures { result ≡ block_time height timestamp }
{
    BlockTime {
        height,
        timestamp_ns: timestamp,
    }
}

// Who calls, from the numbers and the key that a host gives.
fn signed(predecessor: u64, signer: u64, key: [u8; 32]) -> Caller
    ensures { result ≡ caller_of predecessor signer key }
{
    Caller {
        predecessor: Account(predecessor),
        signer: Account(signer),
        signer_key: key,
    }
}

#[unsafe(no_mangle)]
pub extern "C" fn brasstally_request(
    book: &mut [[u64; 6]],
    keys: &mut [[u8; 32]],
    texts: &mut [u8],
    predecessor: u64,
    signer: u64,
    key: &[u8; 32],
    text: &[u8],
    height: u64,
    timestamp: u64,
) -> Outcome
    ensures { Does (request_entry (caller_of predecessor signer key.now) text.now height timestamp)
        (tables book.old keys.old texts.old)
        (tables book.new keys.new texts.new) result }
{
    let caller = signed(predecessor, signer, *key);
    let time = time_at(height, timestamp);
    let made = ledger::request_action(book, keys, texts, caller, text, time);
    Outcome::from(made.map(|r| r.id.0))
}

#[unsafe(no_mangle)]
pub extern "C" fn brasstally_approve(
    book: &mut [[u64; 6]],
    keys: &mut [[u8; 32]],
    texts: &mut [u8],
    predecessor: u64,
    signer: u64,
    key: &[u8; 32],
    request: u64,
    text: &[u8],
    height: u64,
    timestamp: u64,
) -> Outcome
    ensures { Does (approve_entry (caller_of predecessor signer key.now) request text.now height timestamp)
        (tables book.old keys.old texts.old)
        (tables book.new keys.new texts.new) result }
{
    let caller = signed(predecessor, signer, *key);
    let time = time_at(height, timestamp);
    let made = ledger::approve(book, keys, texts, caller, RequestId(request), text, time);
    Outcome::from(made.map(|proof| proof.approval_index))
}

#[unsafe(no_mangle)]
pub extern "C" fn brasstally_reject(
    book: &mut [[u64; 6]],
    keys: &mut [[u8; 32]],
    texts: &mut [u8],
    predecessor: u64,
    signer: u64,
    key: &[u8; 32],
    request: u64,
    height: u64,
    timestamp: u64,
) -> Outcome
    ensures { Does (reject_entry (caller_of predecessor signer key.now) request height timestamp)
        (tables book.old keys.old texts.old)
        (tables book.new keys.new texts.new) result }
{
    let caller = signed(predecessor, signer, *key);
    let time = time_at(height, timestamp);
    let made = ledger::reject(book, keys, texts, caller, RequestId(request), time);
    Outcome::from(made.map(|r| r.id.0))
}
