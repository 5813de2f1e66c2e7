// A state with free channels behind its own answers every call as the state without them (specs/, proofs/). Assumes nothing.
#![tactic(auto)]

pub use machine_laws;
pub use machine_laws::machine;
