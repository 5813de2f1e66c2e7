// That a log fed through a port, however it was cut, is the log taken in one is a statement (specs/) and its proof (proofs/) over what
// `fragments` and `last_line` promise. Assumes nothing.
#![tactic(auto)]

pub use boundary::{sizes, starting};
pub use fragments::{hearing, port};
pub use images;
pub use whole_log;
