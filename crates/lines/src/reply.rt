// What a command that is not refused is told.
use records::RequestStatus;

// A page's request numbers are the first `count` of `requests`, a row that who asks lends: a reply stays small, as it is passed by value.
#[derive(Clone, Copy)]
pub enum Reply<'a> {
    Done,
    Number(u64),
    Page { count: u64, requests: &'a [u64] },
    Status(RequestStatus),
}
