// Lists by their places, as mathematics: no code. The definitions are in specs/, their laws in proofs/. For `machine`, and for the crates that lay lists out in tables.

#![tactic(auto)]
