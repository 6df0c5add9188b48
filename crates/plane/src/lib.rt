#![tactic(auto)]

// Points, orientation, circles, places and tilings of the plane: definitions (specs/) and their laws (proofs/), and no code.
