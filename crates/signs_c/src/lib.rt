// The calls of crates signs and float_signs for programs in other languages, by numbers alone, as the C interface asks: the static library
// that the comparison with the original links. So each call stays as it is, with its numbers, though exports has the two signs too.
#![tactic(auto)]

ghost use Rattle.std.specs.Prelude.{◌≡◌};
ghost use Rattle.plane.specs.Points.{at};
ghost use Rattle.signs.specs.Signs.{sign_f, number};
ghost use Rattle.signs.specs.Answers.{limit, orient_answer, circle_answer, whole_number};
ghost use Rattle.float_signs.specs.Intake.{intake_of, intake_number, intake_leaves};
ghost use Rattle.float_signs.specs.Parts.{decomp_of, is_finite, mantissa_or, exponent_or};
ghost use Rattle.float_signs.specs.Filter.{vec, orient_filter, circle_f, filter_number};

use float_signs::{Intake, Vec2};
use signs::{Point, Sign};

// -1, 0 or 1
#[unsafe(no_mangle)]
pub extern "C" fn signs_of_f64(v: f64) -> i32
    ensures { result ≡ number (sign_f v) }
{
    Sign::of_f64(v).as_i32()
}

// -1, 0, 1, or 2 for out of range
#[unsafe(no_mangle)]
pub extern "C" fn signs_orient(ax: i32, ay: i32, bx: i32, by: i32, cx: i32, cy: i32) -> i32
    ensures { result ≡ whole_number (orient_answer limit (at ax ay) (at bx by) (at cx cy)) }
{
    let a = Point { x: ax, y: ay };
    let b = Point { x: bx, y: by };
    let c = Point { x: cx, y: cy };
    sign_numbers::number_of(signs::orient_sign(a, b, c))
}

// -1, 0, 1, or 2 for out of range
#[unsafe(no_mangle)]
pub extern "C" fn signs_circle(
    ax: i32,
    ay: i32,
    bx: i32,
    by: i32,
    cx: i32,
    cy: i32,
    dx: i32,
    dy: i32,
) -> i32
    ensures { result ≡ whole_number (circle_answer limit (at ax ay) (at bx by) (at cx cy) (at dx dy)) }
{
    let a = Point { x: ax, y: ay };
    let b = Point { x: bx, y: by };
    let c = Point { x: cx, y: cy };
    let d = Point { x: dx, y: dy };
    sign_numbers::number_of(signs::circle_sign(a, b, c, d))
}

// 0 with the whole number, or 1 for not finite, 2 for too large, 3 for a fraction, and then the number stays
#[unsafe(no_mangle)]
pub extern "C" fn signs_take_in(v: f64, whole: &mut i32) -> i32
    ensures { (result ≡ intake_number (intake_of v)) × (whole.new ≡ intake_leaves (intake_of v) whole.old) }
{
    match float_signs::take_in(v) {
        Intake::Whole(z) => {
            *whole = z;
            0
        }
        Intake::NotFinite(_) => 1,
        Intake::TooLarge(_) => 2,
        Intake::Fraction(_) => 3,
    }
}

// true with the mantissa and the exponent, or false for a number that is not finite, and then both stay
#[unsafe(no_mangle)]
pub extern "C" fn signs_decomp(v: f64, m: &mut i64, e: &mut i32) -> bool
    ensures { (result ≡ is_finite (decomp_of v)) × (m.new ≡ mantissa_or (decomp_of v) m.old) × (e.new ≡ exponent_or (decomp_of v) e.old) }
{
    match float_signs::decomp(v) {
        Some(d) => {
            *m = d.mantissa;
            *e = d.exponent;
            true
        }
        None => false,
    }
}

// -1, 0, 1, or 2 for no sign
#[unsafe(no_mangle)]
pub extern "C" fn signs_orient2d_filter(ax: f64, ay: f64, bx: f64, by: f64, cx: f64, cy: f64) -> i32
    ensures { result ≡ filter_number (orient_filter (vec ax ay) (vec bx by) (vec cx cy)) }
{
    let a = Vec2 { x: ax, y: ay };
    let b = Vec2 { x: bx, y: by };
    let c = Vec2 { x: cx, y: cy };
    match float_signs::orient2d_filter(a, b, c) {
        Some(s) => s.as_i32(),
        None => 2,
    }
}

#[unsafe(no_mangle)]
pub extern "C" fn signs_incircle_det(
    ax: f64,
    ay: f64,
    bx: f64,
    by: f64,
    cx: f64,
    cy: f64,
    dx: f64,
    dy: f64,
) -> f64
    ensures { result ≡ circle_f (vec ax ay) (vec bx by) (vec cx cy) (vec dx dy) }
{
    let a = Vec2 { x: ax, y: ay };
    let b = Vec2 { x: bx, y: by };
    let c = Vec2 { x: cx, y: cy };
    let d = Vec2 { x: dx, y: dy };
    float_signs::incircle_det(a, b, c, d)
}
