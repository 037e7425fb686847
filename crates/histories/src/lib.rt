// No code: what a lowering history is, and demand 3 as theorems (specs/History, proofs) (D-38).

#![tactic(auto)]
