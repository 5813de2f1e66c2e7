// Demand 3 of a log fed through a port in fragments is a statement (specs/) and its proof (proofs/). Assumes nothing.
#![tactic(auto)]
