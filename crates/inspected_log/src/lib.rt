// The inspector's second assurance (#113) of what the log program writes: a statement (specs/) and its proof (proofs/). Assumes nothing.
#![tactic(auto)]
