// Runs a case of the cutter and tells it: the answer in document 01's terms, what the lent lists hold afterwards, and what the checker says
// of the sheet.
#![tactic(auto)]

use reports::MARK;
use std::convert::AsSlice;
use std::io;

// The checker writes in the working area too, so it is asked after what the cutter left there is told.
fn judge(
    rt: &impl Print,
    points: &[i32],
    pairs: &[u32],
    out: &[u32],
    work: &mut [u32],
    count: usize,
) -> io::Result<()> {
    if out.len() / 3 < count {
        return rt.print("; more triples than there is room for");
    }
    rt.print("; checker: ")?;
    trials::verdict(rt, points, pairs, &out[..3 * count], work)
}

// A figure that is cut. Its name is text or bytes.
#[derive(Clone, Copy)]
pub struct Run<'a, N = &'a str> {
    pub name: N,
    pub points: &'a [i32],
    pub pairs: &'a [u32],
}

impl<N: AsSlice<u8>> Run<'_, N> {
    pub fn cut(&self, rt: &impl Print, out: &mut [u32], work: &mut [u32]) -> io::Result<()> {
        rt.write_all(self.name.as_slice())?;
        rt.print(": ")?;
        let answer = cutter::cut(self.points, self.pairs, out, work);
        match answer {
            Ok(count) => {
                print!(rt; "sheet, T = {count}")?;
                reports::sheet(rt, out, count)?;
            }
            Err(r) => {
                reports::refused(rt, r)?;
                rt.print("\n")?;
            }
        }
        reports::output(rt, out)?;
        reports::working_area(rt, work)?;
        if let Ok(count) = answer {
            judge(rt, self.points, self.pairs, out, work, count)?;
        }
        rt.print("\n")
    }
}

// Figures of at most seventeen points, with more room than they need.
pub fn small<N: AsSlice<u8>>(rt: &impl Print, runs: &[Run<'_, N>]) -> io::Result<()> {
    for run in runs {
        run.cut(rt, &mut [MARK; 90], &mut [MARK; 1100])?;
    }
    Ok(())
}
