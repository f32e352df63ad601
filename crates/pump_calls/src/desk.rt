// A ledger and the public calls as the scenes make them, all at one time. For `rounds` and the scenes.
use crate::tell::Number;
use ids::{Account, RequestId};
use records::{BlockTime, Caller, Principal, Refusal, RequestStatus, Role};
use rooms::Tables;

// No answer of the examples hangs on the time.
const NOW: BlockTime = BlockTime {
    height: 1,
    timestamp_ns: 1,
};

// Account 7 owns the ledger.
const OWNER: Account = Account(7);

#[derive(Drop)]
pub struct Desk {
    tables: Tables,
}

impl Desk {
    pub fn new() -> Desk {
        Desk {
            tables: Tables::new(),
        }
    }

    // Never refused: the tables have the right lengths.
    pub fn open(&mut self) {
        let t = &mut self.tables;
        let _ = ledger::open(&mut t.book, &mut t.keys, &mut t.texts, OWNER);
    }

    // The whole answer to an add: a scene may ask for more of it than the number.
    pub fn registered(
        &mut self,
        caller: u64,
        who: Caller,
        role: Role,
    ) -> Result<Principal, Refusal> {
        let t = &mut self.tables;
        let (book, keys, texts) = (&mut t.book, &mut t.keys, &t.texts);
        let (caller, key, account) = (Account(caller), who.signer_key, who.signer);
        ledger::add_principal(book, keys, texts, caller, key, account, role)
    }

    pub fn add(&mut self, caller: u64, who: Caller, role: Role) -> Result<Number, Refusal> {
        let added = self.registered(caller, who, role);
        added.map(|p| Number(p.registration_id.0))
    }

    pub fn revoke(&mut self, who: Caller) -> Result<Number, Refusal> {
        let t = &mut self.tables;
        let key = who.signer_key;
        let ended = ledger::revoke_key(&mut t.book, &mut t.keys, &t.texts, OWNER, key, NOW);
        ended.map(|p| Number(p.registration_id.0))
    }

    pub fn request(&mut self, who: Caller, action: &[u8]) -> Result<Number, Refusal> {
        let t = &mut self.tables;
        let (book, keys, texts) = (&mut t.book, &mut t.keys, &mut t.texts);
        let asked = ledger::request_action(book, keys, texts, who, action, NOW);
        asked.map(|r| Number(r.id.0))
    }

    pub fn approve(&mut self, who: Caller, request: u64, action: &[u8]) -> Result<Number, Refusal> {
        let t = &mut self.tables;
        let (book, keys, texts) = (&mut t.book, &mut t.keys, &mut t.texts);
        let approved = ledger::approve(book, keys, texts, who, RequestId(request), action, NOW);
        approved.map(|p| Number(p.approval_index))
    }

    pub fn reject(&mut self, who: Caller, request: u64) -> Result<Number, Refusal> {
        let t = &mut self.tables;
        let (book, keys, texts) = (&mut t.book, &mut t.keys, &mut t.texts);
        let rejected = ledger::reject(book, keys, texts, who, RequestId(request), NOW);
        rejected.map(|r| Number(r.id.0))
    }

    pub fn status(&self, request: u64) -> Result<RequestStatus, Refusal> {
        let t = &self.tables;
        ledger::request_status(&t.book, &t.keys, &t.texts, RequestId(request))
    }

    // How many entries a page has.
    pub fn page(&self, from: u64, limit: u64) -> Result<u64, Refusal> {
        let t = &self.tables;
        ledger::approvals_page(&t.book, &t.keys, &t.texts, from, limit).map(|p| p.count)
    }
}
