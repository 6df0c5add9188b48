#![tactic(auto)]

// The algebra under every proof about coordinates: it has definitions (specs/) and laws (proofs/), and no code.
