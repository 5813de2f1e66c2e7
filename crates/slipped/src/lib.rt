// Nothing slipped in (#113): a statement (specs/) and its proof (proofs/) over the machine. Assumes nothing.
#![tactic(auto)]

pub use nothing_left;
