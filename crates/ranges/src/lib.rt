#![tactic(auto)]

// `all`, `any` and `find` of a range of numbers: laws (proofs/), and no code.
