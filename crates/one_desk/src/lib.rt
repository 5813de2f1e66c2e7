// One desk hears nothing of the other (#109): a statement (specs/) and its proof (proofs/). Assumes nothing.
#![tactic(auto)]
