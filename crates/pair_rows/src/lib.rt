// Rows 8 to 10 of document 01's table, in the table's order. Row 8 is crate pair_checks. Rows 9 and 10 are there too, where each pair is
// tried with each point and with each pair before it; crates spans and sweeps have them in order of rank, where a pair is tried with those
// alone that come between its ends. The promises are over the definitions of crate tables: Data, Refusals, Answers.
#![tactic(auto)]

ghost use Rattle.std.specs.Prelude.{◌≡◌, ◌*◌, ◌%◌, ◌≤◌, length};
ghost use Rattle.segments.specs.Near.{Near};
ghost use Rattle.tables.specs.Answers.{yes, row_at, of_checked};
ghost use Rattle.tables.specs.Data.{point_count, pair_count};
ghost use Rattle.tables.specs.Figures.{Figure};
ghost use Rattle.tables.specs.Refusals.{rows8to10};
ghost use Rattle.rooms.specs.Rest.{Rest};
ghost use Rattle.pair_checks.specs.Ends.{Ends};
ghost use Rattle.pair_rows.specs.Rows.{rows9and10};

use tables::Refusal;

// Fewer pairs than these are tried each with each: to put the points in order would cost more than it saves.
const FEW: usize = 32;

// The working area has room for so many pairs in order for each point. Where there are more, they are tried each with each.
const HELD: usize = 10;

// Row 10, the last of the table, from its lowest crossing pair.
fn row_10(crossing: Option<usize>) -> Result<(), Refusal>
    ensures { of_checked result ≡ row_at 10 crossing yes }
{
    match crossing {
        Some(k) => Err(Refusal::CrossingPair(k)),
        None => Ok(()),
    }
}

// Rows 9 and 10, each with each.
fn rows_9_and_10_each(points: &[i32], pairs: &[u32]) -> Result<(), Refusal>
    requires near { Near points.now }
    requires ends { Ends points.now pairs.now }
    ensures { of_checked result ≡ rows9and10 points.now pairs.now }
{
    if let Some(k) = pair_checks::blocked_pair(points, pairs) {
        return Err(Refusal::BlockedPair(k));
    }
    row_10(pair_checks::crossing_pair(points, pairs))
}

// Rows 9 and 10, in order of rank.
fn rows_9_and_10_ordered(points: &[i32], pairs: &[u32], work: &mut [u32]) -> Result<(), Refusal>
    requires figure { Figure points.now }
    requires ends { Ends points.now pairs.now }
    requires points_in_bounds { (64 * point_count points.now ≤ length work.old) × (pair_count pairs.now ≤ 10 * point_count points.now) }
    ensures result_value { of_checked result ≡ rows9and10 points.now pairs.now }
    ensures rest { Rest (64 * point_count points.now) work.old work.new }
{
    ranks::rank_points(points, work);
    if let Some(k) = spans::blocked_pair(points, pairs, work) {
        return Err(Refusal::BlockedPair(k));
    }
    row_10(sweeps::crossing_pair(points, pairs, work))
}

// Rows 8 to 10, for points that passed the rows above. The first 64 numbers for each point of the working area may be written.
pub fn rows_8_to_10(points: &[i32], pairs: &[u32], work: &mut [u32]) -> Result<(), Refusal>
    requires figure { Figure points.now }
    requires pairs_len { (length pairs.now % 2 ≡ 0) × (64 * point_count points.now ≤ length work.old) }
    ensures result_value { of_checked result ≡ rows8to10 points.now pairs.now }
    ensures rest { Rest (64 * point_count points.now) work.old work.new }
{
    let n = points.len() / 2;
    let m = pairs.len() / 2;
    if let Some(k) = pair_checks::bad_pair(pairs, n) {
        return Err(Refusal::BadPair(k));
    }
    if m < FEW || HELD * n < m {
        rows_9_and_10_each(points, pairs)
    } else {
        rows_9_and_10_ordered(points, pairs, work)
    }
}
