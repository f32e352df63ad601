// The ledger as mathematics: no code. What it is and does is in specs/, what is true of it in proofs/. For the reader who must believe it, and for every promise above.

#![tactic(auto)]
