#![tactic(auto)]

// Recovery never sticks: definitions (specs/) and their laws (proofs/), and no code.
