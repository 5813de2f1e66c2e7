// Demand 3 of the log program's output is a statement (specs/) and its proof (proofs/). Assumes nothing.
#![tactic(auto)]
