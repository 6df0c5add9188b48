// Refusals 1 to 10 of document 01's table: `rows` asks every row in the table's order. Rows 4 and 7 are crate point_checks, rows 5 and 6
// crate base_checks, rows 8 to 10 crate pair_rows. A row is asked only where those above it pass, which is what it may take for granted.
// Rows 9 and 10 use the working area, which row 3 has found long enough, and it is cleared behind them, whatever the answer is. The
// promises are over the definitions of crate tables: Data, Refusals, Answers, Verdicts.
#![tactic(auto)]

ghost use Rattle.std.specs.Prelude.{◌≡◌, false, ◌*◌, ◌%◌, ◌≤◌, length};
ghost use Rattle.tables.specs.Answers.{of_checked};
ghost use Rattle.tables.specs.Data.{point_count};
ghost use Rattle.tables.specs.Refusals.{rows, rows4to10};
ghost use Rattle.tables.specs.Verdicts.{left_work};
ghost use Rattle.rooms.specs.Rest.{Rest};

use tables::Refusal;

// Row 2's limits.
const MOST_POINTS: usize = 4096;

const MOST_PAIRS: usize = 12288;

// Rows 4 to 10, which may write the first 64n numbers of the working area.
fn rows_4_to_10(points: &[i32], pairs: &[u32], work: &mut [u32]) -> Result<(), Refusal>
    requires points_len { (length points.now % 2 ≡ 0) × (length pairs.now % 2 ≡ 0) }
    requires bound { (3 ≤ point_count points.now) × (point_count points.now ≤ 4096) × (64 * point_count points.now ≤ length work.old) }
    ensures result_value { of_checked result ≡ rows4to10 points.now pairs.now }
    ensures rest { Rest (64 * point_count points.now) work.old work.new }
{
    if let Some(i) = point_checks::far_point(points) {
        return Err(Refusal::FarPoint(i));
    }
    if base_checks::no_area(points) {
        return Err(Refusal::NoArea);
    }
    if let Some(i) = base_checks::outside_point(points) {
        return Err(Refusal::OutsidePoint(i));
    }
    if let Some(i) = point_checks::equal_point(points) {
        return Err(Refusal::EqualPoint(i));
    }
    pair_rows::rows_8_to_10(points, pairs, work)
}

// Rows 1 to 10. `odd` and `short` are what else rows 1 and 3 ask of the caller's other lists; where `short` is false, the working area has
// its 64n numbers. It is unchanged on refusals 1 to 3, else its first 64n numbers are zero and the rest is unchanged.
pub fn rows(
    points: &[i32],
    pairs: &[u32],
    odd: bool,
    short: bool,
    work: &mut [u32],
) -> Result<(), Refusal>
    requires { short ≡ false → 64 * point_count points.now ≤ length work.old }
    ensures answer { of_checked result ≡ rows odd short points.now pairs.now }
    ensures work { work.new ≡ left_work (rows odd short points.now pairs.now) (point_count points.now) work.old }
{
    let n = points.len() / 2;
    let m = pairs.len() / 2;
    if points.len() % 2 != 0 || pairs.len() % 2 != 0 || odd {
        return Err(Refusal::OddLength);
    }
    if n < 3 || MOST_POINTS < n || MOST_PAIRS < m {
        return Err(Refusal::Counts);
    }
    if short {
        return Err(Refusal::Room);
    }
    let answer = rows_4_to_10(points, pairs, work);
    rooms::clear(work, 64 * n);
    answer
}
