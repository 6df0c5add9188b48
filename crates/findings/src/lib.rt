// What the cutter answers and leaves, compared with what is expected, and what is told of it.
#![tactic(auto)]

pub mod telling;

pub use reports::MARK;
use std::fmt;
use tables::Refusal;

// What a case is expected to come to: the list of a sheet, or the number and the place of a refusal.
#[derive(Clone, Copy)]
pub enum Expected<'a> {
    Sheet(&'a [u32]),
    Refused { number: u32, place: u32 },
}

// The first thing that differs.
#[derive(Clone, Copy, Debug, PartialEq, Eq)]
pub enum Difference {
    Answer,
    List,
    Output,
    Work,
    Checker,
}

impl fmt::Display for Difference {
    fn fmt<W: fmt::Write>(&self, f: &mut fmt::Formatter<W>) -> fmt::Result {
        f.write_str(match self {
            Difference::Answer => "the answer",
            Difference::List => "the list of triangles",
            Difference::Output => "the rest of the output",
            Difference::Work => "the working area",
            Difference::Checker => "the checker's verdict",
        })
    }
}

pub type Finding = Result<(), Difference>;

fn ensure(holds: bool, otherwise: Difference) -> Finding {
    if holds { Ok(()) } else { Err(otherwise) }
}

fn is_marked(list: &[u32]) -> bool {
    list.iter().all(|&v| v == MARK)
}

// The part of the working area that so many points need is zero, and the rest is as before.
fn is_cleared(work: &[u32], points: usize) -> bool {
    work.split_at_checked(points.saturating_mul(64)).is_some_and(|(part, rest)| part
        .iter()
        .all(|&v| v == 0)
        && is_marked(rest))
}

// By rows 1 to 3 the working area is as before.
fn refusal(r: Refusal, points: usize, expected: (u32, u32), out: &[u32], work: &[u32]) -> Finding {
    let number = row_numbers::number(r);
    ensure(
        (number as usize, row_numbers::place(r)) == (expected.0 as usize, expected.1 as usize),
        Difference::Answer,
    )?;
    ensure(is_marked(out), Difference::Output)?;
    ensure(
        if number < 4 {
            is_marked(work)
        } else {
            is_cleared(work, points)
        },
        Difference::Work,
    )
}

fn sheet(count: usize, points: usize, expected: &[u32], out: &[u32], work: &[u32]) -> Finding {
    ensure(count == expected.len() / 3, Difference::Answer)?;
    let rest = out.strip_prefix(expected).ok_or(Difference::List)?;
    ensure(is_marked(rest), Difference::Output)?;
    ensure(is_cleared(work, points), Difference::Work)
}

// What the cutter answered for so many points, and what it left in the output and in the working area.
pub fn compared(
    answer: Result<usize, Refusal>,
    points: usize,
    expected: Expected<'_>,
    out: &[u32],
    work: &[u32],
) -> Finding {
    match (answer, expected) {
        (Ok(count), Expected::Sheet(list)) => sheet(count, points, list, out, work),
        (Err(r), Expected::Refused { number, place }) => {
            refusal(r, points, (number, place), out, work)
        }
        _ => Err(Difference::Answer),
    }
}
