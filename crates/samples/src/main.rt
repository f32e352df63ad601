// Replays each command file of the stored list and writes its lines. For the gate, which holds them to `stdout`, made by host's rebuild.
#![tactic(auto)]

mod each;

use std::{fs, io};

fn main(rt: HostRuntime) -> io::Result<()> {
    let mut list = fs::open(&rt, "list")?;
    each::replay_all(&rt, &mut list)
}
