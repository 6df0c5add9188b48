// The checker for programs in other languages, by numbers alone, as the C interface asks. The benchmark links it.
#![tactic(auto)]

ghost use Rattle.std.specs.Prelude.{◌≡◌, false, length};
ghost use Rattle.tables.specs.Data.{point_count};
ghost use Rattle.tables.specs.Refusals.{rows, short_work};
ghost use Rattle.tables.specs.Verdicts.{verdict, left_work};
ghost use Rattle.checker_c.specs.Number.{number_of};

use tables::Objection;

// 0 for yes, a refusal's number, or 100 and the number of the broken rule; the place is not told.
#[unsafe(no_mangle)]
pub extern "C" fn checker_check(
    points: &[i32],
    pairs: &[u32],
    list: &[u32],
    work: &mut [u32],
) -> u32
    ensures answer { result ≡ number_of (verdict points.now pairs.now list.now (length work.old)) }
    ensures work { work.new ≡ left_work (verdict points.now pairs.now list.now (length work.old)) (point_count points.now) work.old }
{
    match checker::check(points, pairs, list, work) {
        Ok(()) => 0,
        Err(Objection::Breaks(rule)) => 100 + rule as u32,
        Err(Objection::Refused(r)) => row_numbers::number(r),
    }
}

// Rows 1 to 10 alone, with the working area that the rules would use: 0, or the refusal's number. It is left as `checker_check` leaves it.
#[unsafe(no_mangle)]
pub extern "C" fn checker_rows(points: &[i32], pairs: &[u32], work: &mut [u32]) -> u32
    ensures answer { result ≡ number_of (rows false (short_work (point_count points.now) (length work.old)) points.now pairs.now) }
    ensures work { work.new ≡ left_work (rows false (short_work (point_count points.now) (length work.old)) points.now pairs.now) (point_count points.now) work.old }
{
    let short = work.len() / 64 < points.len() / 2;
    match checks::rows(points, pairs, false, short, work) {
        Ok(_) => 0,
        Err(r) => row_numbers::number(r),
    }
}
