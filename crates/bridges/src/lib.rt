// The bridge from the nets of the working area to those of the pure model of recovery: definitions (specs/) and their laws (proofs/), and no code.
#![tactic(auto)]
