// The working area during a recovery, seen as a net of the model of recovery: definitions (specs/) and their laws (proofs/), and no code.
#![tactic(auto)]
