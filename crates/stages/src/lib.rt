// How far the pairs have come in a net: definitions (specs/) and their laws (proofs/), and no code.
#![tactic(auto)]
