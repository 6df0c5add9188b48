// What the recovery of a pair writes in the lent working area: definitions (specs/), their laws (proofs/), and two enums that its parts answer
// with. There is no code here.
#![tactic(auto)]

// Why a recovery sticks.
#[derive(Clone, Copy, Debug, PartialEq, Eq)]
pub enum Reason {
    NoNeighbour,
    Marked,
    Twice,
    OnLine,
    Apex,
}

// What lies behind an edge that the segment crosses: the half-edge by which the next triangle is entered, and its far corner where that lies
// on a side of the segment.
#[derive(Clone, Copy, Debug, PartialEq, Eq)]
pub enum Beyond {
    Left(usize, usize),
    Right(usize, usize),
    Last(usize),
}
