// The long laws of document 01's machine (proofs/): the choice is the rule, a sound state stays sound, settling rests, 64 replies are
// enough. The words in which they are said stand in specs/, and proofs/Pinned.antt pins them. The machine's definitions, and the short
// laws that pin those, are the crate `machine`. Assumes nothing.
#![tactic(auto)]

pub use machine;
