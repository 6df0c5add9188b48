// The refusals by number: document 01's number of a refusal, and its place.
#![tactic(auto)]

ghost use Rattle.std.specs.Prelude.{◌≡◌, ◌≤◌};
ghost use Rattle.tables.specs.Answers.{of_refusal};
ghost use Rattle.row_numbers.specs.Numbers.{number_in, place_of};

use tables::Refusal;

pub fn number(r: Refusal) -> u32
    ensures { (result ≡ number_in (of_refusal r)) × (result ≤ 11) }
{
    // The numbers stand here by hand, as `as` takes no enum whose variants have values.
    match r {
        Refusal::OddLength => 1,
        Refusal::Counts => 2,
        Refusal::Room => 3,
        Refusal::FarPoint(_) => 4,
        Refusal::NoArea => 5,
        Refusal::OutsidePoint(_) => 6,
        Refusal::EqualPoint(_) => 7,
        Refusal::BadPair(_) => 8,
        Refusal::BlockedPair(_) => 9,
        Refusal::CrossingPair(_) => 10,
        Refusal::StuckPair(_) => 11,
    }
}

// 0 where the table says none
pub fn place(r: Refusal) -> usize
    ensures { result ≡ place_of r }
{
    match r {
        Refusal::OddLength | Refusal::Counts | Refusal::Room | Refusal::NoArea => 0,
        Refusal::FarPoint(i) | Refusal::OutsidePoint(i) | Refusal::EqualPoint(i) => i,
        Refusal::BadPair(k)
        | Refusal::BlockedPair(k)
        | Refusal::CrossingPair(k)
        | Refusal::StuckPair(k) => k,
    }
}
