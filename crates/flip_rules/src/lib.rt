// Step 3 by the coordinates of numbered points, which rule 7 asks for: whether an edge flips.
//
// Document 01, "Building steps", 3, says what the call answers. The definitions are those of crate tables.
#![tactic(auto)]

ghost use Rattle.std.specs.Prelude.{◌≡◌, cond, ◌&&◌, ◌<◌};
ghost use Rattle.algebra.specs.Tests.{posb};
ghost use Rattle.plane.specs.Points.{at};
ghost use Rattle.tables.specs.Data.{point_count, point};
ghost use Rattle.tables.specs.Rules.{rank, pair_below, flips};
ghost use Rattle.segments.specs.Near.{Near};
ghost use Rattle.place_rules.specs.Numbered.{area};
ghost use Rattle.flip_rules.specs.Order.{comes_before};

use signs::Sign;

// A point's coordinates, which compare by x and then by y.
fn place(points: &[i32], i: usize) -> (i32, i32)
    requires { i < point_count points.now }
    ensures { at result.0 result.1 ≡ point points.now i }
{
    let p = segments::point_at(points, i);
    (p.x, p.y)
}

// The places of two points, first that of the one before the other.
fn places(points: &[i32], i: usize, j: usize) -> ((i32, i32), (i32, i32))
    requires near { Near points.now }
    requires i_bound { (i < point_count points.now) × (j < point_count points.now) }
    ensures { (at result.0.0 result.0.1 ≡ cond (comes_before points.now i j) (point points.now i) (point points.now j)) × (at result.1.0 result.1.1 ≡ cond (comes_before points.now i j) (point points.now j) (point points.now i)) }
{
    let p = place(points, i);
    let q = place(points, j);
    if p < q { (p, q) } else { (q, p) }
}

// The rank pair of c and d is below that of a and b. Points compare as their ranks do, so the points are compared and no rank is counted.
fn pair_below(points: &[i32], c: usize, d: usize, a: usize, b: usize) -> bool
    requires near { Near points.now }
    requires a_bound { (a < point_count points.now) × (b < point_count points.now) × (c < point_count points.now) × (d < point_count points.now) }
    ensures { result ≡ pair_below (rank points.now c) (rank points.now d) (rank points.now a) (rank points.now b) }
{
    places(points, c, d) < places(points, a, b)
}

// The triangles that a flip of a b to c d makes are both strictly counterclockwise.
fn can_turn(points: &[i32], a: usize, b: usize, c: usize, d: usize) -> bool
    requires near { Near points.now }
    requires a_bound { (a < point_count points.now) × (b < point_count points.now) × (c < point_count points.now) × (d < point_count points.now) }
    ensures { result ≡ posb (area points.now a d c) && posb (area points.now d b c) }
{
    segments::is_left(points, a, d, c) && segments::is_left(points, d, b, c)
}

// Step 3 flips the edge a b, with c the far corner of its triangle and d that of its neighbour. The circle sign decides nearly always, so
// it is asked first, and the ranks only where it is zero.
pub fn would_flip(points: &[i32], a: usize, b: usize, c: usize, d: usize) -> bool
    requires near { Near points.now }
    requires a_bound { (a < point_count points.now) × (b < point_count points.now) × (c < point_count points.now) × (d < point_count points.now) }
    ensures { result ≡ flips points.now a b c d }
{
    match segments::circle_at(points, a, b, c, d) {
        Sign::Pos => can_turn(points, a, b, c, d),
        Sign::Zero => pair_below(points, c, d, a, b) && can_turn(points, a, b, c, d),
        Sign::Neg => false,
    }
}
