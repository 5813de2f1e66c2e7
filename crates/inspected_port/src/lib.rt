// The inspector's two assurances (#113) of a log fed through a port: statements (specs/) and their proofs (proofs/). Assumes nothing.
#![tactic(auto)]
