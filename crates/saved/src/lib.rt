// A state as a text that service staff carry from one board to another is a definition (specs/Saved.antt) with its laws (proofs/).
// Assumes nothing.
#![tactic(auto)]
