// Document 02, #110, "The wall display", as definitions (specs/) and laws (proofs/). Assumes nothing.
#![tactic(auto)]

pub use widening::machine_laws;
