// The public call: any lists and any lent room get a sheet of triangles or a numbered refusal.
#![tactic(auto)]

ghost use Rattle.std.specs.Prelude.{◌≡◌, ◌*◌, length};
ghost use Rattle.tables.specs.Answers.{yes};
ghost use Rattle.tables.specs.Data.{point_count};
ghost use Rattle.tables.specs.Verdicts.{cleared};
ghost use Rattle.cutter.specs.Cuts.{asked, Passed, Cutting};

use tables::Refusal;

// Data that pass rows 1 to 10: the points, then the pairs, then the list in house order.
fn make_sheet(
    points: &[i32],
    pairs: &[u32],
    out: &mut [u32],
    work: &mut [u32],
) -> Result<usize, Refusal>
    requires { asked points.now pairs.now (length out.old) (length work.old) ≡ yes }
    ensures passed { Passed points.now pairs.now out.old work.old out.new result }
    ensures work_after { work.new ≡ cleared (64 * point_count points.now) work.old }
{
    let n = points.len() / 2;
    let count = builder::build(points, work);
    carving::clear_rows(work, n, count);
    let Err(stuck) = recovery::recover_pairs(points, pairs, work, count) else {
        sheets::write_sheet(work, n, count, out);
        rooms::clear(work, 64 * n);
        return Ok(count);
    };
    rooms::clear(work, 64 * n);
    Err(Refusal::StuckPair(stuck.pair))
}

// Cuts a figure: the count of the sheet's triples, or a refusal. The output and the working area are left as document 01 says, on every
// return: `rows` leaves the working area so where it refuses, and cleared where it passes the data.
pub fn cut(
    points: &[i32],
    pairs: &[u32],
    out: &mut [u32],
    work: &mut [u32],
) -> Result<usize, Refusal>
    ensures { Cutting points.now pairs.now out.old work.old out.new work.new result }
{
    let n = points.len() / 2;
    let short = rooms::is_short(n, out.len(), work.len());
    checks::rows(points, pairs, false, short, work)?;
    make_sheet(points, pairs, out, work)
}
