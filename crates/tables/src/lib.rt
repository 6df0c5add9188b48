// Document 01 as definitions (specs/), and the answers that it numbers, as enums. There is no code here.
#![tactic(auto)]

// The refusals of the table, in its order; a place is a point's number or a pair's.
#[derive(Clone, Copy, Debug, PartialEq, Eq)]
pub enum Refusal {
    // 1
    OddLength,
    // 2
    Counts,
    // 3
    Room,
    // 4
    FarPoint(usize),
    // 5
    NoArea,
    // 6
    OutsidePoint(usize),
    // 7
    EqualPoint(usize),
    // 8
    BadPair(usize),
    // 9
    BlockedPair(usize),
    // 10
    CrossingPair(usize),
    // 11
    StuckPair(usize),
}

// The eight sheet rules, by document 01's numbers.
#[derive(Clone, Copy, Debug, PartialEq, Eq)]
pub enum Rule {
    TriplesProper = 1,
    EdgesOnce = 2,
    EdgesMet = 3,
    PointsMet = 4,
    AreasFill = 5,
    PairsMet = 6,
    EdgesStay = 7,
    HouseOrder = 8,
}

// Why the checker does not say yes to a list: the lowest rule that it breaks, or the refusal of the data.
#[derive(Clone, Copy, Debug, PartialEq, Eq)]
pub enum Objection {
    Breaks(Rule),
    Refused(Refusal),
}
