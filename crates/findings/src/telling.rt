// What is printed: the first cases that differ, and at the end how many there are of which answer.
use crate::{Expected, Finding};
use std::{fmt, io};

// How many cases there are, of them how many with a sheet and with each refusal, and how many differ.
#[derive(Default, Drop)]
pub struct Tally {
    cases: u32,
    sheets: u32,
    refusals: [u32; 10],
    differ: u32,
}

// A count stops at a million.
fn count(n: &mut u32) {
    *n = n.saturating_add(1).min(1_000_000);
}

impl Tally {
    // Which case differs, and in what. Of many only the first ten are told.
    pub fn found(
        &mut self,
        rt: &impl Print,
        case: usize,
        expected: Expected<'_>,
        finding: Finding,
    ) -> io::Result<()> {
        count(&mut self.cases);
        match expected {
            Expected::Sheet(_) => count(&mut self.sheets),
            // The table has rows 1 to 10. Data with another number count it with the sheets, the cases that differ or all cases.
            Expected::Refused { number, .. } => match number {
                0 => count(&mut self.sheets),
                11 => count(&mut self.differ),
                12 => count(&mut self.cases),
                _ => {
                    if let Some(n) = self.refusals.get_mut((number as usize).saturating_sub(1)) {
                        count(n);
                    }
                }
            },
        }
        let Err(difference) = finding else {
            return Ok(());
        };
        count(&mut self.differ);
        if self.differ <= 10 {
            println!(rt; "case {case} differs: {difference}")?;
        }
        Ok(())
    }
}

impl fmt::Display for Tally {
    fn fmt<W: fmt::Write>(&self, f: &mut fmt::Formatter<W>) -> fmt::Result {
        writeln!(f, "cases: {}", self.cases)?;
        writeln!(f, "sheets: {}", self.sheets)?;
        for (number, count) in (1..11).zip(&self.refusals) {
            writeln!(f, "refusal {number}: {count}")?;
        }
        writeln!(f, "differ: {}", self.differ)
    }
}

pub fn summary(rt: &impl Print, tally: &Tally, is_whole: bool) -> io::Result<()> {
    print!(rt; "{tally}")?;
    rt.println(if is_whole {
        "the data are whole"
    } else {
        "the data are NOT whole: a case is missing, or there is more than the cases"
    })
}
