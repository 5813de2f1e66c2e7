// The machine before request #101 is definitions (specs/). Assumes nothing.
#![tactic(auto)]
