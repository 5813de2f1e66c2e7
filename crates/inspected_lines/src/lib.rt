// The inspector's two assurances (#113) of a log: statements (specs/) and their proofs (proofs/) over the machine. Assumes nothing.
#![tactic(auto)]

pub use slipped;
pub use slipped::nothing_left;
