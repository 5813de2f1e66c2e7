// Saved texts compared with the second program's are computed (specs/SavedVectors.antt). Assumes nothing.
#![tactic(auto)]
