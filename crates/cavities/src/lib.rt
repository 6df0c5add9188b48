#![tactic(auto)]

// The pure model of recovery: definitions (specs/) and their laws (proofs/), and no code.
