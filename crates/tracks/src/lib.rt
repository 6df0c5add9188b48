// The walk along the corridor in the working area is the walk of the model of recovery, and where it sticks, so does document 01's step 4:
// statements (specs/) and their proofs (proofs/), and no code.
#![tactic(auto)]
