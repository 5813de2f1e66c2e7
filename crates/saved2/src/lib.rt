// A state as a text of the second form is a definition (specs/Saved2.antt) with its laws (proofs/). Assumes nothing.
#![tactic(auto)]

pub use saved;
