// Demand 3 of the bytes that a program in C lends is a statement (specs/) and its proof (proofs/). Assumes nothing.
#![tactic(auto)]

pub use boundary;
pub use boundary::{desk_call, handed, sizes, starting};
pub use code_runs;
pub use code_runs::{arbiter, refusals};
pub use halves;
pub use images;
