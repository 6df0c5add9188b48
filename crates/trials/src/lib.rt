// Runs a case of the checker and tells the verdict.
#![tactic(auto)]

use std::convert::AsSlice;
use std::io;

pub fn verdict(
    rt: &impl Print,
    points: &[i32],
    pairs: &[u32],
    list: &[u32],
    work: &mut [u32],
) -> io::Result<()> {
    reports::verdict(rt, checker::check(points, pairs, list, work))
}

// A list that is judged as the sheet of a figure. Its name is text or bytes.
#[derive(Clone, Copy)]
pub struct Trial<'a, N = &'a str> {
    pub name: N,
    pub points: &'a [i32],
    pub pairs: &'a [u32],
    pub list: &'a [u32],
}

impl<N: AsSlice<u8>> Trial<'_, N> {
    pub fn judge(&self, rt: &impl Print, work: &mut [u32]) -> io::Result<()> {
        rt.write_all(self.name.as_slice())?;
        rt.print(": ")?;
        verdict(rt, self.points, self.pairs, self.list, work)?;
        rt.print("\n")
    }
}

// Cases of at most ten points, with room for them.
pub fn small<N: AsSlice<u8>>(rt: &impl Print, trials: &[Trial<'_, N>]) -> io::Result<()> {
    for trial in trials {
        trial.judge(rt, &mut [7; 640])?;
    }
    Ok(())
}
