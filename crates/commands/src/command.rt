// A command as it is read, whole. Its text is the very part of the input.
use ids::{Account, Key, RequestId};
use records::{BlockTime, Caller, Role};

#[derive(Clone, Copy)]
pub struct AddCommand {
    pub caller: Account,
    pub key: Key,
    pub account: Account,
    pub role: Role,
}

#[derive(Clone, Copy)]
pub struct RevokeCommand {
    pub caller: Account,
    pub key: Key,
    pub now: BlockTime,
}

#[derive(Clone, Copy)]
pub struct RequestCommand<'a> {
    pub caller: Caller,
    pub text: &'a [u8],
    pub now: BlockTime,
}

#[derive(Clone, Copy)]
pub struct ApproveCommand<'a> {
    pub caller: Caller,
    pub request: RequestId,
    pub text: &'a [u8],
    pub now: BlockTime,
}

#[derive(Clone, Copy)]
pub struct RejectCommand {
    pub caller: Caller,
    pub request: RequestId,
    pub now: BlockTime,
}

#[derive(Clone, Copy)]
pub struct PageCommand {
    pub from: u64,
    pub limit: u64,
}

#[derive(Clone, Copy)]
pub enum Command<'a> {
    Open(Account),
    Add(AddCommand),
    Revoke(RevokeCommand),
    Request(RequestCommand<'a>),
    Approve(ApproveCommand<'a>),
    Reject(RejectCommand),
    Status(RequestId),
    Page(PageCommand),
}
