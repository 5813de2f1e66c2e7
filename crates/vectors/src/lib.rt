// The machine compared with the second program, by tables that the prover computes (specs/). Assumes nothing.
#![tactic(auto)]
