// Demand 3 on the code is a statement (specs/) and its proof (proofs/). The call of a run is `code_turns`. Assumes nothing.
#![tactic(auto)]

pub use arbiter;
pub use arbiter::refusals;
