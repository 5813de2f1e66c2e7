// An old log comes out as before request #101: a statement (specs/) and its proof (proofs/). Assumes nothing.
#![tactic(auto)]
