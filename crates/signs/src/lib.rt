// Signs: of numbers, and of orientations and circles on whole coordinates.
//
// The original is robust/exact/mod.rs (`Sign`) and intpred.rs; document 01, section "Signs", says what each call answers. Every promise is
// over definitions of specs/: Signs, Answers. The float tier, crate float_signs, stands on this one.
#![tactic(auto)]

ghost use Rattle.std.specs.Prelude.{◌≡◌, ◌&&◌, [], ◌∷◌, leb, nat_abs};
ghost use Rattle.algebra.specs.Size.{Small};
ghost use Rattle.plane.specs.Determinants.{orient, incircle};
ghost use Rattle.signs.specs.Signs.{sign_z, sign_f, flipped, number};
ghost use Rattle.signs.specs.Answers.{limit, within, orient_answer, circle_answer};
ghost use Rattle.signs.specs.Points.{pt_of};

use std::cmp::Ordering;

// The largest size of a coordinate, refusal 4's limit.
pub const LIMIT: i32 = 8192;

#[derive(Clone, Copy, Debug, PartialEq, Eq)]
pub enum Sign {
    Neg = -1,
    Zero = 0,
    Pos = 1,
}

impl Sign {
    // 2^-53, the Rust's f64::EPSILON * 0.5
    pub const EPS: f64 = 2.220446049250313e-16 * 0.5;

    pub const CCW_ERRBOUND_A: f64 = (3.0 + 16.0 * Self::EPS) * Self::EPS;

    // 2^-1022, the Rust's f64::MIN_POSITIVE
    pub const MIN_POSITIVE: f64 = 2.2250738585072014e-308;

    pub fn of_i64(n: i64) -> Sign
        ensures { result ≡ sign_z n }
    {
        match n.cmp(&0) {
            Ordering::Less => Sign::Neg,
            Ordering::Equal => Sign::Zero,
            Ordering::Greater => Sign::Pos,
        }
    }

    // Floats have no total order, so two comparisons are plainer than `partial_cmp`, whose `None` would be zero too.
    pub fn of_f64(v: f64) -> Sign
        ensures { result ≡ sign_f v }
    {
        if v > 0.0 {
            Sign::Pos
        } else if v < 0.0 {
            Sign::Neg
        } else {
            Sign::Zero
        }
    }

    // Document 01 names the functions of `Sign`, so this is no `Neg`.
    pub fn flip(self) -> Sign
        ensures { result ≡ flipped self }
    {
        match self {
            Sign::Neg => Sign::Pos,
            Sign::Zero => Sign::Zero,
            Sign::Pos => Sign::Neg,
        }
    }

    pub fn as_i32(self) -> i32
        ensures { result ≡ number self }
    {
        self as i32
    }
}

// ---- whole coordinates

#[derive(Clone, Copy, Debug, PartialEq, Eq)]
pub struct Point {
    pub x: i32,
    pub y: i32,
}

fn in_range(x: i32) -> bool
    ensures { result ≡ leb (nat_abs x) limit }
{
    x.unsigned_abs() <= LIMIT as u32
}

// No coordinate of the point is beyond the limit.
pub fn within(p: Point) -> bool
    ensures { result ≡ within limit (pt_of p) }
{
    in_range(p.x) && in_range(p.y)
}

fn all_within(a: Point, b: Point, c: Point) -> bool
    ensures { result ≡ within limit (pt_of a) && within limit (pt_of b) && within limit (pt_of c) }
{
    within(a) && within(b) && within(c)
}

// The orientation of a, b, c, for callers that know their coordinates to be within the limit.
pub fn orient_det(a: Point, b: Point, c: Point) -> i64
    requires { Small limit (a.x ∷ a.y ∷ b.x ∷ b.y ∷ c.x ∷ c.y ∷ []) }
    ensures { result ≡ orient (pt_of a) (pt_of b) (pt_of c) }
{
    let acx = (a.x as i64) - (c.x as i64);
    let acy = (a.y as i64) - (c.y as i64);
    let bcx = (b.x as i64) - (c.x as i64);
    let bcy = (b.y as i64) - (c.y as i64);
    acx * bcy - acy * bcx
}

// The sign of the orientation of a, b, c, where no coordinate is beyond the limit: positive means counterclockwise.
pub fn orient_sign(a: Point, b: Point, c: Point) -> Option<Sign>
    ensures { result ≡ orient_answer limit (pt_of a) (pt_of b) (pt_of c) }
{
    if all_within(a, b, c) {
        Some(Sign::of_i64(orient_det(a, b, c)))
    } else {
        None
    }
}

// Its twin over floats, float_signs::incircle_det, keeps the original's order of operations, which rounds.
fn circle_det(a: Point, b: Point, c: Point, d: Point) -> i64
    requires { Small limit (a.x ∷ a.y ∷ b.x ∷ b.y ∷ c.x ∷ c.y ∷ d.x ∷ d.y ∷ []) }
    ensures { result ≡ incircle (pt_of a) (pt_of b) (pt_of c) (pt_of d) }
{
    let adx = (a.x as i64) - (d.x as i64);
    let ady = (a.y as i64) - (d.y as i64);
    let bdx = (b.x as i64) - (d.x as i64);
    let bdy = (b.y as i64) - (d.y as i64);
    let cdx = (c.x as i64) - (d.x as i64);
    let cdy = (c.y as i64) - (d.y as i64);
    let alift = adx * adx + ady * ady;
    let blift = bdx * bdx + bdy * bdy;
    let clift = cdx * cdx + cdy * cdy;
    let bc = bdx * cdy - cdx * bdy;
    let ca = cdx * ady - adx * cdy;
    let ab = adx * bdy - bdx * ady;
    alift * bc + blift * ca + clift * ab
}

// The circle's whole work: the one place that another way to its sign would change.
fn circle_work(a: Point, b: Point, c: Point, d: Point) -> Sign
    requires { Small limit (a.x ∷ a.y ∷ b.x ∷ b.y ∷ c.x ∷ c.y ∷ d.x ∷ d.y ∷ []) }
    ensures { result ≡ sign_z (incircle (pt_of a) (pt_of b) (pt_of c) (pt_of d)) }
{
    Sign::of_i64(circle_det(a, b, c, d))
}

// The circle sign of a, b, c and d, where no coordinate is beyond the limit: for counterclockwise a, b, c, positive means that d is
// strictly inside their circle.
pub fn circle_sign(a: Point, b: Point, c: Point, d: Point) -> Option<Sign>
    ensures { result ≡ circle_answer limit (pt_of a) (pt_of b) (pt_of c) (pt_of d) }
{
    if all_within(a, b, c) && within(d) {
        Some(circle_work(a, b, c, d))
    } else {
        None
    }
}
