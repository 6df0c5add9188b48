#![tactic(auto)]

// f64 arithmetic on whole numbers: definitions (specs/) and laws (proofs/), and no code.
