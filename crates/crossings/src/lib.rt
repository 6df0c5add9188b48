// Two tests of segments between points that are known to be near: whether a point is strictly inside a segment, and whether two
// segments cross.
//
// Document 01, refusals 9 and 10, says what each call answers. These refusals try each pair with many points and many other pairs, so the
// first tests are those that nearly always go one way. A point is seldom on the line of a segment, but may well be in its box: so
// `in_segment_xy` asks for the orientation first. Boxes of two segments seldom overlap: so `crosses_xy` compares them first, and in y before
// x, since the callers that go by rank try only segments whose ranges of x meet.
#![tactic(auto)]

ghost use Rattle.std.specs.Prelude.{◌≡◌, [], ◌∷◌, ◌<◌};
ghost use Rattle.algebra.specs.Size.{Small};
ghost use Rattle.plane.specs.Determinants.{orient};
ghost use Rattle.signs.specs.Answers.{limit};
ghost use Rattle.signs.specs.Points.{pt_of};
ghost use Rattle.tables.specs.Data.{point_count, point};
ghost use Rattle.tables.specs.Refusals.{between, in_segment, opposed, crosses};
ghost use Rattle.segments.specs.Near.{Near};
ghost use Rattle.crossings.specs.Boxes.{apart};

use signs::{Point, Sign};

// ---- a point in a segment

// The differences from the two ends have no common sign. The product needs one test where the two orders of the ends would need four.
fn between(a: i32, b: i32, z: i32) -> bool
    requires { Small limit (a ∷ b ∷ z ∷ []) }
    ensures { result ≡ between a b z }
{
    (z - a) * (z - b) <= 0
}

// p lies strictly inside the segment from a to b.
pub fn in_segment_xy(a: Point, b: Point, p: Point) -> bool
    requires { Small limit (a.x ∷ a.y ∷ b.x ∷ b.y ∷ p.x ∷ p.y ∷ []) }
    ensures { result ≡ in_segment (pt_of a) (pt_of b) (pt_of p) }
{
    segments::orient_xy(a, b, p) == Sign::Zero
        && between(a.x, b.x, p.x)
        && between(a.y, b.y, p.y)
        && p != a
        && p != b
}

// The same of numbered points.
pub fn in_segment(points: &[i32], a: usize, b: usize, p: usize) -> bool
    requires near { Near points.now }
    requires a_bound { (a < point_count points.now) × (b < point_count points.now) × (p < point_count points.now) }
    ensures { result ≡ in_segment (point points.now a) (point points.now b) (point points.now p) }
{
    let a = segments::point_at(points, a);
    let b = segments::point_at(points, b);
    let p = segments::point_at(points, p);
    in_segment_xy(a, b, p)
}

// ---- segments that cross

// The ranges have a gap between them. The product needs one test where the two sides of the gap would need two.
fn ranges_apart(a: i32, b: i32, c: i32, d: i32) -> bool
    requires { Small limit (a ∷ b ∷ c ∷ d ∷ []) }
    ensures { result ≡ apart a b c d }
{
    (c.min(d) - a.max(b)) * (a.min(b) - c.max(d)) < 0
}

// The points c and d lie strictly on both sides of the line through a and b. The product needs one test where the signs would need four.
fn on_both_sides(a: Point, b: Point, c: Point, d: Point) -> bool
    requires { Small limit (a.x ∷ a.y ∷ b.x ∷ b.y ∷ c.x ∷ c.y ∷ d.x ∷ d.y ∷ []) }
    ensures { result ≡ opposed (orient (pt_of a) (pt_of b) (pt_of c)) (orient (pt_of a) (pt_of b) (pt_of d)) }
{
    signs::orient_det(a, b, c) * signs::orient_det(a, b, d) < 0
}

// The segments from a to b and from c to d cross properly: the ends of each lie strictly on both sides of the other's line.
pub fn crosses_xy(a: Point, b: Point, c: Point, d: Point) -> bool
    requires { Small limit (a.x ∷ a.y ∷ b.x ∷ b.y ∷ c.x ∷ c.y ∷ d.x ∷ d.y ∷ []) }
    ensures { result ≡ crosses (pt_of a) (pt_of b) (pt_of c) (pt_of d) }
{
    !ranges_apart(a.y, b.y, c.y, d.y)
        && !ranges_apart(a.x, b.x, c.x, d.x)
        && on_both_sides(a, b, c, d)
        && on_both_sides(c, d, a, b)
}

// The same of numbered points.
pub fn crosses(points: &[i32], a: usize, b: usize, c: usize, d: usize) -> bool
    requires near { Near points.now }
    requires a_bound { (a < point_count points.now) × (b < point_count points.now) × (c < point_count points.now) × (d < point_count points.now) }
    ensures { result ≡ crosses (point points.now a) (point points.now b) (point points.now c) (point points.now d) }
{
    let a = segments::point_at(points, a);
    let b = segments::point_at(points, b);
    let c = segments::point_at(points, c);
    let d = segments::point_at(points, d);
    crosses_xy(a, b, c, d)
}
