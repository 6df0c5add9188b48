// The float tier: float points and their intake, the parts of a float, the filter of `orient2d` and the f64 circle determinant.
//
// The original is filtered.rs; document 01, section "Float points and the float tier", says what each call answers. Every promise is over
// definitions of specs/: Intake, Parts, Filter. The error bound is a constant of `Sign`, in crate signs.
#![tactic(auto)]

ghost use Rattle.std.specs.Prelude.{◌≡◌, ℕ, ◌<◌, ℤ};
ghost use Rattle.std.specs.Float.Ieee.{odd};
ghost use Rattle.plane.specs.Points.{Pt};
ghost use Rattle.plane.specs.Determinants.{orient, incircle};
ghost use Rattle.floats.specs.Whole.{Is};
ghost use Rattle.float_signs.specs.Intake.{intake_of, point_intake_of};
ghost use Rattle.float_signs.specs.Parts.{decomp_of, Reduced};
ghost use Rattle.float_signs.specs.Filter.{WholePoint, certified, orient_filter, circle_f, decided};

use signs::Sign;

// Refusal 4's limit as a float.
const FLOAT_LIMIT: f64 = signs::LIMIT as f64;

#[derive(Clone, Copy)]
pub struct Vec2 {
    pub x: f64,
    pub y: f64,
}

// What the intake of one coordinate answers; a refusal carries the offending float back.
// Document 01, "Where each language form goes", names this enum.
#[derive(Clone, Copy, Debug)]
pub enum Intake {
    Whole(i32),
    NotFinite(f64),
    TooLarge(f64),
    Fraction(f64),
}

pub fn take_in(x: f64) -> Intake
    ensures { result ≡ intake_of x }
{
    if x.is_finite() {
        if x > FLOAT_LIMIT || x < -FLOAT_LIMIT {
            return Intake::TooLarge(x);
        }
        let t = std::num::truncating_f64_to_i64(x);
        let back = t as f64;
        if back == x {
            Intake::Whole(t as i32)
        } else {
            Intake::Fraction(x)
        }
    } else {
        Intake::NotFinite(x)
    }
}

// What the intake of a point answers: both coordinates, or the refusal of the first that fails, x before y.
// It has the cases of the intake of a coordinate, which document 01 names.
#[derive(Clone, Copy, Debug)]
pub enum PointIntake {
    Whole(i32, i32),
    NotFinite(f64),
    TooLarge(f64),
    Fraction(f64),
}

pub fn take_in_point(p: Vec2) -> PointIntake
    ensures { result ≡ point_intake_of p }
{
    let first = take_in(p.x);
    match first {
        Intake::NotFinite(v) => PointIntake::NotFinite(v),
        Intake::TooLarge(v) => PointIntake::TooLarge(v),
        Intake::Fraction(v) => PointIntake::Fraction(v),
        Intake::Whole(x) => {
            let second = take_in(p.y);
            match second {
                Intake::NotFinite(v) => PointIntake::NotFinite(v),
                Intake::TooLarge(v) => PointIntake::TooLarge(v),
                Intake::Fraction(v) => PointIntake::Fraction(v),
                Intake::Whole(y) => PointIntake::Whole(x, y),
            }
        }
    }
}

// A finite float is mantissa · 2^exponent, with an odd mantissa, or both are 0.
#[derive(Clone, Copy, Debug, PartialEq, Eq)]
pub struct Dyadic {
    pub mantissa: i64,
    pub exponent: i32,
}

// The parts of q · 2^(k - 1074), negative where asked.
fn parts(negative: bool, q: u64, k: u64) -> Dyadic
    requires { (0 < q) × (q < 9007199254740992) × (k < 2046) }
    ensures { Some result ≡ decomp_of (odd 53 negative q k 1074) }
{
    let tz = u64::trailing_zeros(q);
    let m = (q >> tz) as i64;
    let e = ((k + (tz as u64)) as i32) - 1074;
    if negative {
        Dyadic {
            mantissa: -m,
            exponent: e,
        }
    } else {
        Dyadic {
            mantissa: m,
            exponent: e,
        }
    }
}

pub fn decomp(v: f64) -> Option<Dyadic>
    ensures parts { result ≡ decomp_of v }
    ensures reduced { Reduced result }
{
    if v.is_finite() {
        if v == 0.0 {
            return Some(Dyadic {
                mantissa: 0,
                exponent: 0,
            });
        }
        let bits = f64::to_bits(v);
        let biased = (bits >> 52) & 0x7ff;
        let frac = bits & 0xf_ffff_ffff_ffff;
        let negative = v < 0.0;
        if biased == 0 {
            Some(parts(negative, frac, 0))
        } else {
            Some(parts(negative, frac | 0x10_0000_0000_0000, biased - 1))
        }
    } else {
        None
    }
}

// What the static error bound certifies: the sign of det where the permanent is normal and finite and det is larger than the bound, else none.
fn certify(errbound: f64, det: f64, permanent: f64) -> Option<Sign>
    ensures { result ≡ certified errbound det permanent }
{
    if permanent >= Sign::MIN_POSITIVE
        && permanent.is_finite()
        && det.abs() > errbound * permanent
    {
        Some(Sign::of_f64(det))
    } else {
        None
    }
}

// The filter of `orient2d`, the Rust's formula operation by operation.
pub fn orient2d_filter(a: Vec2, b: Vec2, c: Vec2) -> Option<Sign>
    ensures formula { result ≡ orient_filter a b c }
    ensures whole { (p q s : Pt ℤ) → WholePoint 8192 a p → WholePoint 8192 b q → WholePoint 8192 c s → result ≡ decided (orient p q s) }
{
    let detleft = (a.x - c.x) * (b.y - c.y);
    let detright = (a.y - c.y) * (b.x - c.x);
    let det = detleft - detright;
    let permanent = detleft.abs() + detright.abs();
    certify(Sign::CCW_ERRBOUND_A, det, permanent)
}

// The f64 determinant of the circle test, the Rust's formula operation by operation.
pub fn incircle_det(a: Vec2, b: Vec2, c: Vec2, d: Vec2) -> f64
    ensures formula { result ≡ circle_f a b c d }
    ensures exact { (p q s t : Pt ℤ) → WholePoint 2048 a p → WholePoint 2048 b q → WholePoint 2048 c s → WholePoint 2048 d t
        → Is result (incircle p q s t) }
{
    let adx = a.x - d.x;
    let ady = a.y - d.y;
    let bdx = b.x - d.x;
    let bdy = b.y - d.y;
    let cdx = c.x - d.x;
    let cdy = c.y - d.y;

    let bdxcdy = bdx * cdy;
    let cdxbdy = cdx * bdy;
    let alift = adx * adx + ady * ady;

    let cdxady = cdx * ady;
    let adxcdy = adx * cdy;
    let blift = bdx * bdx + bdy * bdy;

    let adxbdy = adx * bdy;
    let bdxady = bdx * ady;
    let clift = cdx * cdx + cdy * cdy;

    alift * (bdxcdy - cdxbdy) + blift * (cdxady - adxcdy) + clift * (adxbdy - bdxady)
}
