// That every sound state has its bytes is a law (proofs/) over what `image` defines. Assumes nothing.
#![tactic(auto)]
