// That the recovery of a pair in the working area is one of the model, and what it makes of the pairs before it: definitions (specs/) and their
// laws (proofs/), and no code.
#![tactic(auto)]
