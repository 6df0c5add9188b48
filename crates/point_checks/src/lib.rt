// Refusals 4 and 7 of document 01's table, whose places are points and which need no base: the lowest point beyond the limit, and the
// lowest at the place of one before it. The promises are over the definitions of crate tables: Data, Refusals, Answers.
#![tactic(auto)]

ghost use Rattle.std.specs.Prelude.{◌≡◌, ◌<◌};
ghost use Rattle.tables.specs.Answers.{lowest};
ghost use Rattle.tables.specs.Data.{point_count, point, same};
ghost use Rattle.tables.specs.Refusals.{far, again};

// ---- row 4

fn is_far(points: &[i32], i: usize) -> bool
    requires { i < point_count points.now }
    ensures { result ≡ far points.now i }
{
    !signs::within(segments::point_at(points, i))
}

// The lowest point with a coordinate beyond the limit.
pub fn far_point(points: &[i32]) -> Option<usize>
    ensures { result ≡ lowest (point_count points.now) (far points.now) }
{
    (0..points.len() / 2).find(|&i| is_far(points, i))
}

// ---- row 7

// The y are read only where the x are equal, which is seldom: row 7 asks this of every two points.
fn at_one_place(points: &[i32], i: usize, j: usize) -> bool
    requires { (i < point_count points.now) × (j < point_count points.now) }
    ensures { result ≡ same (point points.now i) (point points.now j) }
{
    points[2 * i] == points[2 * j] && points[2 * i + 1] == points[2 * j + 1]
}

fn seen_before(points: &[i32], i: usize) -> bool
    requires { i < point_count points.now }
    ensures { result ≡ again points.now i }
{
    (0..i).any(|j| at_one_place(points, j, i))
}

// The lowest point at the place of one before it.
// It stays a function of its own when it is compiled: merged into rows 8 to 10, its loop would share their registers.
#[inline(never)]
pub fn equal_point(points: &[i32]) -> Option<usize>
    ensures { result ≡ lowest (point_count points.now) (again points.now) }
{
    (0..points.len() / 2).find(|&i| seen_before(points, i))
}
