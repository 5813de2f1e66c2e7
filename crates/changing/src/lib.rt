// What a command that was not refused may take for granted, and the room that its replies have. It has no code. Assumes nothing.
#![tactic(auto)]

pub use freeing;
