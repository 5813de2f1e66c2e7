// The inspector's two assurances (#113) of the code, on structs: statements (specs/) and their proofs (proofs/). Assumes nothing.
#![tactic(auto)]
