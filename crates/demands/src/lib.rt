// The order's three demands, as theorems about the public promises: no code. One short file a demand, in proofs/; what they speak of is in specs/. An auditor starts here.

#![tactic(auto)]
