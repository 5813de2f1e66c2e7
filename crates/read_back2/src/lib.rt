// That a text of the second form reads back to its state, and to no other, is a law (proofs/) over what `saved2` and `reading` define.
// Assumes nothing.
#![tactic(auto)]

pub use number_lines;
pub use number_lines::saved2;
pub use read_back;
pub use read_back::{hex_lines, reading, saved, sheet};
