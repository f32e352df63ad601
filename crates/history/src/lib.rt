// Histories of accepted changes, as mathematics: no code. What is reckoned from them is in specs/, what is true of them in proofs/. For `demands`, and for the reader who must believe it.

#![tactic(auto)]
