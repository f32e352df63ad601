// Document 01's pump-side examples, each sentence run on real tables, with what the call answered. For whoever wants to see the ledger answer.
#![tactic(auto)]

mod scenes;

use pump_calls::desk::Desk;
use std::io;

fn main(rt: HostRuntime) -> io::Result<()> {
    let mut desk = Desk::new();
    scenes::registering(&rt, &mut desk)?;
    scenes::text_lengths(&rt, &mut desk)?;
    scenes::sixteen_pending(&rt, &mut desk)?;
    scenes::another_text(&rt, &mut desk)?;
    scenes::own_account(&rt, &mut desk)?;
    scenes::agent_revoked(&rt, &mut desk)?;
    scenes::approved_before(&rt, &mut desk)?;
    scenes::rejected_before(&rt, &mut desk)?;
    scenes::pages(&rt, &mut desk)?;
    scenes::key_room(&rt, &mut desk)?;
    scenes::registration_room(&rt, &mut desk)?;
    scenes::text_room(&rt, &mut desk)
}
