// Refusals 5 and 6 of document 01's table: whether points 0, 1 and 2 have no area, and the lowest point outside the base that they make.
// The promises are over the definitions of crate tables: Data, Refusals, Answers.
#![tactic(auto)]

ghost use Rattle.std.specs.Prelude.{◌≡◌, ◌≤◌, ◌<◌};
ghost use Rattle.segments.specs.Near.{Near};
ghost use Rattle.tables.specs.Answers.{lowest};
ghost use Rattle.tables.specs.Data.{point_count, clockwise};
ghost use Rattle.tables.specs.Refusals.{no_area, outside};
ghost use Rattle.base_checks.specs.Base.{outside_of};

// ---- row 5, and how the base turns

// Points 0, 1 and 2 lie on a line.
pub fn no_area(points: &[i32]) -> bool
    requires near { Near points.now }
    requires bound { 3 ≤ point_count points.now }
    ensures { result ≡ no_area points.now }
{
    segments::is_flat(points, 0, 1, 2)
}

// Points 0, 1 and 2 are clockwise, so the base reads 0, 2, 1.
pub fn is_clockwise(points: &[i32]) -> bool
    requires near { Near points.now }
    requires bound { 3 ≤ point_count points.now }
    ensures { result ≡ clockwise points.now }
{
    segments::is_right(points, 0, 1, 2)
}

// ---- row 6

// The base reads 0, b, c. Which numbers b and c are is asked once, before the search.
fn is_outside(points: &[i32], b: usize, c: usize, i: usize) -> bool
    requires near { Near points.now }
    requires b_bound { (b < point_count points.now) × (c < point_count points.now) × (i < point_count points.now) }
    ensures { result ≡ outside_of points.now b c i }
{
    segments::is_right(points, 0, b, i)
        || segments::is_right(points, b, c, i)
        || segments::is_right(points, c, 0, i)
}

fn outside_base(points: &[i32], b: usize, c: usize) -> Option<usize>
    requires near { Near points.now }
    requires b_bound { (b < point_count points.now) × (c < point_count points.now) }
    ensures { result ≡ lowest (point_count points.now) (outside_of points.now b c) }
{
    (0..points.len() / 2).find(|&i| is_outside(points, b, c, i))
}

// The lowest point outside the closed base.
pub fn outside_point(points: &[i32]) -> Option<usize>
    requires near { Near points.now }
    requires bound { 3 ≤ point_count points.now }
    ensures { result ≡ lowest (point_count points.now) (outside points.now) }
{
    if is_clockwise(points) {
        outside_base(points, 2, 1)
    } else {
        outside_base(points, 1, 2)
    }
}
