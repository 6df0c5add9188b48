// The signs of numbered points that are known to be near: on which side of a segment a point lies, and on which side of a circle.
//
// Document 01, "Signs", says what each call answers.
#![tactic(auto)]

ghost use Rattle.std.specs.Prelude.{◌≡◌, [], ◌∷◌, ◌<◌, pos, neg_ℤ};
ghost use Rattle.algebra.specs.Size.{Small};
ghost use Rattle.algebra.specs.Tests.{posb, eq_z};
ghost use Rattle.plane.specs.Determinants.{orient, incircle};
ghost use Rattle.signs.specs.Signs.{sign_z};
ghost use Rattle.signs.specs.Answers.{limit};
ghost use Rattle.signs.specs.Points.{pt_of};
ghost use Rattle.tables.specs.Data.{point_count, point};
ghost use Rattle.segments.specs.Near.{Near};

use signs::{Point, Sign};

// Point i of the list: its x stands at place 2i, and its y at the next.
pub fn point_at(points: &[i32], i: usize) -> Point
    requires { i < point_count points.now }
    ensures { pt_of result ≡ point points.now i }
{
    Point {
        x: points[2 * i],
        y: points[2 * i + 1],
    }
}

// The sign of the orientation of three points by their coordinates.
// signs::orient_sign asks for the limit first, which these callers know, so both stand.
pub fn orient_xy(a: Point, b: Point, c: Point) -> Sign
    requires { Small limit (a.x ∷ a.y ∷ b.x ∷ b.y ∷ c.x ∷ c.y ∷ []) }
    ensures { result ≡ sign_z (orient (pt_of a) (pt_of b) (pt_of c)) }
{
    Sign::of_i64(signs::orient_det(a, b, c))
}

// The sign of the orientation of three numbered points.
pub fn orient_at(points: &[i32], a: usize, b: usize, c: usize) -> Sign
    requires near { Near points.now }
    requires a_bound { (a < point_count points.now) × (b < point_count points.now) × (c < point_count points.now) }
    ensures { result ≡ sign_z (orient (point points.now a) (point points.now b) (point points.now c)) }
{
    let a = point_at(points, a);
    let b = point_at(points, b);
    let c = point_at(points, c);
    orient_xy(a, b, c)
}

// c is strictly left of the line from a to b: the three are counterclockwise.
// Three functions, one for each sign, are plainer at their callers than one that takes the sign: document 01 names left, right and no area.
pub fn is_left(points: &[i32], a: usize, b: usize, c: usize) -> bool
    requires near { Near points.now }
    requires a_bound { (a < point_count points.now) × (b < point_count points.now) × (c < point_count points.now) }
    ensures { result ≡ posb (orient (point points.now a) (point points.now b) (point points.now c)) }
{
    orient_at(points, a, b, c) == Sign::Pos
}

// c is strictly right of the line from a to b: the three are clockwise.
pub fn is_right(points: &[i32], a: usize, b: usize, c: usize) -> bool
    requires near { Near points.now }
    requires a_bound { (a < point_count points.now) × (b < point_count points.now) × (c < point_count points.now) }
    ensures { result ≡ posb (neg_ℤ (orient (point points.now a) (point points.now b) (point points.now c))) }
{
    orient_at(points, a, b, c) == Sign::Neg
}

// The three points have no area.
pub fn is_flat(points: &[i32], a: usize, b: usize, c: usize) -> bool
    requires near { Near points.now }
    requires a_bound { (a < point_count points.now) × (b < point_count points.now) × (c < point_count points.now) }
    ensures { result ≡ eq_z (orient (point points.now a) (point points.now b) (point points.now c)) (pos 0) }
{
    orient_at(points, a, b, c) == Sign::Zero
}

// The circle sign of four numbered points.
pub fn circle_at(points: &[i32], a: usize, b: usize, c: usize, d: usize) -> Sign
    requires near { Near points.now }
    requires a_bound { (a < point_count points.now) × (b < point_count points.now) × (c < point_count points.now) × (d < point_count points.now) }
    ensures { result ≡ sign_z (incircle (point points.now a) (point points.now b) (point points.now c) (point points.now d)) }
{
    let a = point_at(points, a);
    let b = point_at(points, b);
    let c = point_at(points, c);
    let d = point_at(points, d);
    signs::circle_sign(a, b, c, d).unwrap()
}
