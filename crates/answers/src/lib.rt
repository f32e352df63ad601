// What the public calls answer beside `Result`: a page in a record of its own. For `ledger`, the crates of its parts, and all who call it.
#![tactic(auto)]

use records::PageEntry;

// A page of the log: the first `count` entries are the page's, and the others are all zero.
#[derive(Clone, Copy)]
pub struct Page {
    pub count: u64,
    pub entries: [PageEntry; 100],
}
