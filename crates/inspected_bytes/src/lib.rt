// The inspector's two assurances (#113) of the bytes that a program in C lends: statements (specs/) and their proofs (proofs/). Assumes
// nothing.
#![tactic(auto)]
