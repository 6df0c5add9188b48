#![tactic(auto)]

// Nets of triangles by half-edges, as the lent working area holds them: splits, flips, tilings, the building steps and the end of
// flipping. Definitions (specs/) and their laws (proofs/), and no code.
