// That the pages of a log, put together, are the machine's log is a statement (specs/) and its proof (proofs/) over what `paging` and
// `finishing` promise. Assumes nothing.
#![tactic(auto)]

pub use finishing;
pub use paging;
pub use paging::{channel_lines, serving, taking};
