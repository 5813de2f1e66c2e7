// That the saved text of a sound state reads back to that state is a law (proofs/) over what `saved` and `reading` define. Assumes
// nothing.
#![tactic(auto)]

pub use reading;
pub use reading::{hex_lines, sheet};
pub use saved;
