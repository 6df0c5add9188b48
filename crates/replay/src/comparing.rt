// One case: the cutter is asked, and what it answers and leaves is compared with what is expected.
use findings::{Difference, Expected, Finding};

// Where the sheet is as expected, the checker is asked about its list, and is lent what the cutter was lent.
pub fn compared(
    points: &[i32],
    pairs: &[u32],
    expected: Expected<'_>,
    out: &mut [u32],
    work: &mut [u32],
) -> Finding {
    let answer = cutter::cut(points, pairs, out, work);
    findings::compared(answer, points.len() / 2, expected, out, work)?;
    match expected {
        Expected::Sheet(list) => {
            checker::check(points, pairs, list, work).map_err(|_| Difference::Checker)
        }
        Expected::Refused { .. } => Ok(()),
    }
}
