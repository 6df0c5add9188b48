// The library for programs in other languages, by numbers alone, as the C interface asks: cut, check, and the signs of orientation and
// circle. c/dergulam.h declares these functions and says what each number means, so they stay as they are, though signs_c has two of them too.
#![tactic(auto)]

ghost use Rattle.std.specs.Prelude.{◌≡◌, length};
ghost use Rattle.plane.specs.Points.{at};
ghost use Rattle.signs.specs.Answers.{limit, orient_answer, circle_answer, whole_number};
ghost use Rattle.tables.specs.Data.{point_count};
ghost use Rattle.tables.specs.Verdicts.{verdict, left_work};
ghost use Rattle.packing.specs.Packed.{Judged};
ghost use Rattle.exports.specs.Told.{Told};

use signs::Point;

// Cuts a figure: 0 and the number of triples, or a refusal's number and its place.
#[unsafe(no_mangle)]
pub extern "C" fn dergulam_cut(
    points: &[i32],
    pairs: &[u32],
    out: &mut [u32],
    work: &mut [u32],
) -> u64
    ensures { Told points.now pairs.now out.old work.old out.new work.new result }
{
    match cutter::cut(points, pairs, out, work) {
        Ok(count) => count as u64,
        Err(r) => packing::refusal(r),
    }
}

// Judges a list: 0 for yes, the number of the lowest broken rule, or a refusal's number and its place in the two halves.
#[unsafe(no_mangle)]
pub extern "C" fn dergulam_check(
    points: &[i32],
    pairs: &[u32],
    list: &[u32],
    work: &mut [u32],
) -> u64
    ensures answer { Judged (verdict points.now pairs.now list.now (length work.old)) result }
    ensures work { work.new ≡ left_work (verdict points.now pairs.now list.now (length work.old)) (point_count points.now) work.old }
{
    packing::verdict(checker::check(points, pairs, list, work))
}

// -1, 0, 1, or 2 for out of range
#[unsafe(no_mangle)]
pub extern "C" fn dergulam_orient_sign(ax: i32, ay: i32, bx: i32, by: i32, cx: i32, cy: i32) -> i32
    ensures { result ≡ whole_number (orient_answer limit (at ax ay) (at bx by) (at cx cy)) }
{
    let a = Point { x: ax, y: ay };
    let b = Point { x: bx, y: by };
    let c = Point { x: cx, y: cy };
    sign_numbers::number_of(signs::orient_sign(a, b, c))
}

// -1, 0, 1, or 2 for out of range
#[unsafe(no_mangle)]
pub extern "C" fn dergulam_circle_sign(
    ax: i32,
    ay: i32,
    bx: i32,
    by: i32,
    cx: i32,
    cy: i32,
    dx: i32,
    dy: i32,
) -> i32
    ensures { result ≡ whole_number (circle_answer limit (at ax ay) (at bx by) (at cx cy) (at dx dy)) }
{
    let a = Point { x: ax, y: ay };
    let b = Point { x: bx, y: by };
    let c = Point { x: cx, y: cy };
    let d = Point { x: dx, y: dy };
    sign_numbers::number_of(signs::circle_sign(a, b, c, d))
}
