// The scenes: each opens a ledger anew and makes the calls of one line of document 01's list. For `main`.
use pump_calls::desk::Desk;
use pump_calls::people::{a, agent, b, c};
use pump_calls::tell::{Number, line, refused};
use records::{Refusal, RequestStatus, Role};
use std::io;

// Owner 7; A an agent, B and C approvers.
fn staffed(desk: &mut Desk) {
    desk.open();
    let _ = desk.add(7, a(), Role::Agent);
    let _ = desk.add(7, b(), Role::Approver);
    let _ = desk.add(7, c(), Role::Approver);
}

// The same, and request 0 of A's.
fn asked(desk: &mut Desk) {
    staffed(desk);
    let _ = desk.request(a(), b"maxrate=50");
}

pub fn registering(rt: &impl Print, desk: &mut Desk) -> io::Result<()> {
    staffed(desk);
    let by_8 = desk.add(8, agent(0), Role::Agent);
    refused(rt, "Caller 8 adds", by_8, Refusal::NotOwner)?;
    let twice = desk.add(7, a(), Role::Agent);
    refused(rt, "A added twice", twice, Refusal::KeyAlreadyRegistered)?;
    let unknown = desk.revoke(agent(0));
    refused(
        rt,
        "Revoking an unknown key",
        unknown,
        Refusal::KeyNotRegistered,
    )
}

pub fn text_lengths(rt: &impl Print, desk: &mut Desk) -> io::Result<()> {
    staffed(desk);
    let text = [b'x'; 2049];
    let empty = desk.request(a(), &text[..0]);
    refused(rt, "Empty text", empty, Refusal::EmptyAction)?;
    let longest = desk.request(a(), &text[..2048]);
    line(rt, "2,048 bytes", longest, Ok(Number(0)))?;
    let longer = desk.request(a(), &text);
    refused(rt, "2,049 bytes", longer, Refusal::ActionTooLong)
}

pub fn sixteen_pending(rt: &impl Print, desk: &mut Desk) -> io::Result<()> {
    staffed(desk);
    let sixteenth = desk.requests(b"maxrate=50", 16);
    line(
        rt,
        "The sixteenth pending request",
        sixteenth,
        Ok(Number(15)),
    )?;
    let more = desk.request(a(), b"maxrate=50");
    refused(
        rt,
        "Sixteen pending, one more",
        more,
        Refusal::TooManyPending,
    )?;
    let empty = desk.request(a(), b"");
    refused(
        rt,
        "Sixteen pending, one more with an empty text",
        empty,
        Refusal::EmptyAction,
    )
}

pub fn another_text(rt: &impl Print, desk: &mut Desk) -> io::Result<()> {
    asked(desk);
    let short = desk.approve(b(), 0, b"maxrat=50");
    refused(
        rt,
        "maxrate=50 requested, B approves maxrat=50",
        short,
        Refusal::ActionMismatch,
    )?;
    let text = [b'x'; 2049];
    let empty = desk.approve(b(), 0, &text[..0]);
    refused(
        rt,
        "B approves an empty text",
        empty,
        Refusal::ActionMismatch,
    )?;
    let longer = desk.approve(b(), 0, &text);
    refused(
        rt,
        "B approves an over-long text",
        longer,
        Refusal::ActionMismatch,
    )
}

pub fn own_account(rt: &impl Print, desk: &mut Desk) -> io::Result<()> {
    asked(desk);
    let right = desk.approve(c(), 0, b"maxrate=50");
    refused(
        rt,
        "C approves with the right text",
        right,
        Refusal::SelfApproval,
    )?;
    let wrong = desk.approve(c(), 0, b"maxrat=50");
    refused(
        rt,
        "C approves with a wrong text",
        wrong,
        Refusal::ActionMismatch,
    )?;
    let rejected = desk.reject(c(), 0);
    refused(rt, "C rejects", rejected, Refusal::SelfApproval)
}

pub fn agent_revoked(rt: &impl Print, desk: &mut Desk) -> io::Result<()> {
    asked(desk);
    let before = desk.status(0);
    line(rt, "Request 0", before, Ok(RequestStatus::Pending))?;
    let _ = desk.revoke(a());
    let after = desk.status(0);
    line(rt, "A revoked, request 0", after, Ok(RequestStatus::Void))?;
    let again = desk.registered(7, a(), Role::Agent);
    line(
        rt,
        "A added again, active_from",
        again.map(|p| p.active_from.0),
        Ok(1),
    )?;
    line(
        rt,
        "A added again, pending",
        again.map(|p| p.pending),
        Ok(0),
    )?;
    let still = desk.status(0);
    line(
        rt,
        "A added again, request 0",
        still,
        Ok(RequestStatus::Void),
    )?;
    let approved = desk.approve(b(), 0, b"maxrate=50");
    refused(
        rt,
        "A added again, B approves request 0",
        approved,
        Refusal::AgentRevoked,
    )
}

pub fn approved_before(rt: &impl Print, desk: &mut Desk) -> io::Result<()> {
    asked(desk);
    let approved = desk.approve(b(), 0, b"maxrate=50");
    line(rt, "B approves maxrate=50", approved, Ok(Number(0)))?;
    let rejected = desk.reject(b(), 0);
    refused(
        rt,
        "Approved, then rejected",
        rejected,
        Refusal::AlreadyApproved,
    )
}

pub fn rejected_before(rt: &impl Print, desk: &mut Desk) -> io::Result<()> {
    asked(desk);
    let rejected = desk.reject(b(), 0);
    line(rt, "B rejects", rejected, Ok(Number(0)))?;
    let approved = desk.approve(b(), 0, b"maxrat=50");
    refused(
        rt,
        "Rejected, then approved with a wrong text",
        approved,
        Refusal::AlreadyRejected,
    )
}

pub fn pages(rt: &impl Print, desk: &mut Desk) -> io::Result<()> {
    staffed(desk);
    let last = desk.approvals(120);
    line(rt, "The 120th approval", last, Ok(Number(119)))?;
    let beyond = desk.page(u64::MAX, 5);
    line(rt, "Page from 2^64 - 1, limit 5, entries", beyond, Ok(0))?;
    let first = desk.page(0, 250);
    line(
        rt,
        "Log of 120, page from 0, limit 250, entries",
        first,
        Ok(100),
    )
}

pub fn key_room(rt: &impl Print, desk: &mut Desk) -> io::Result<()> {
    desk.open();
    let last = desk.adds(100);
    line(rt, "The 100th add, 64 registered", last, Ok(Number(99)))?;
    let more = desk.add(7, agent(100), Role::Agent);
    refused(
        rt,
        "64 registered of 100 ever, one more",
        more,
        Refusal::KeysFull,
    )?;
    let _ = desk.revoke(agent(99));
    let freed = desk.add(7, agent(100), Role::Agent);
    line(rt, "After one revoke, the add", freed, Ok(Number(100)))
}

pub fn registration_room(rt: &impl Print, desk: &mut Desk) -> io::Result<()> {
    desk.open();
    let last = desk.adds(256);
    line(rt, "The 256th add, 64 registered", last, Ok(Number(255)))?;
    let more = desk.add(7, agent(256), Role::Agent);
    refused(
        rt,
        "64 registered, 256 used, one more",
        more,
        Refusal::LogFull,
    )
}

pub fn text_room(rt: &impl Print, desk: &mut Desk) -> io::Result<()> {
    staffed(desk);
    let _ = desk.add(7, agent(0), Role::Agent);
    let text = [b'x'; 2048];
    let sixteenth = desk.requests(&text, 16);
    line(
        rt,
        "The sixteenth text of 2,048 bytes",
        sixteenth,
        Ok(Number(15)),
    )?;
    let byte = desk.request(agent(0), b"x");
    refused(
        rt,
        "Sixteen texts of 2,048, then one byte under another key",
        byte,
        Refusal::TextFull,
    )
}
