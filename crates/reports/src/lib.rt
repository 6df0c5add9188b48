// What a case of the cutter comes to, told on standard output: triples, what the lent lists hold afterwards, a refusal, a verdict.
#![tactic(auto)]

use std::io;
use tables::{Objection, Refusal};

// What each number of a lent list is before the call: no point number, and not zero.
pub const MARK: u32 = 9999;

// ---- what a lent list holds after the call

// The list without the part, up to its end, that has the mark everywhere.
fn written(list: &[u32]) -> &[u32] {
    match list.iter().rposition(|&v| v != MARK) {
        Some(last) => &list[..last + 1],
        None => &[],
    }
}

// What is written is told by the one word where each number of it is good, and else by the other.
fn lent<F: Fn(u32) -> bool>(
    rt: &impl Print,
    list: &[u32],
    is_good: F,
    good: &str,
    bad: &str,
) -> io::Result<()>
    requires { F.IsAlwaysCallable is_good }
{
    let part = written(list);
    let count = part.len();
    if count == 0 {
        rt.print(" unchanged")
    } else if !part.iter().all(|&v| is_good(v)) {
        print!(rt; " {bad}")
    } else if count == list.len() {
        print!(rt; ": all {count} {good}")
    } else {
        print!(rt; ": first {count} {good}, rest unchanged")
    }
}

pub fn output(rt: &impl Print, list: &[u32]) -> io::Result<()> {
    rt.print("  output")?;
    lent(rt, list, |v| v != MARK, "written", "written with gaps")
}

pub fn working_area(rt: &impl Print, list: &[u32]) -> io::Result<()> {
    rt.print("; working area")?;
    lent(rt, list, |v| v == 0, "zero", "left in disorder")
}

// ---- the answer

pub fn refused(rt: &impl Print, r: Refusal) -> io::Result<()> {
    print!(rt;
        "refusal {}, place {}",
        row_numbers::number(r),
        row_numbers::place(r)
    )
}

// A broken rule, by any number.
pub fn broken(rt: &impl Print, rule: u32) -> io::Result<()> {
    print!(rt; "breaks rule {rule}")
}

pub fn verdict(rt: &impl Print, answer: Result<(), Objection>) -> io::Result<()> {
    match answer {
        Ok(()) => rt.print("yes"),
        Err(Objection::Breaks(rule)) => broken(rt, rule as u32),
        Err(Objection::Refused(r)) => refused(rt, r),
    }
}

// The triples are printed where they are few.
pub fn sheet(rt: &impl Print, out: &[u32], count: usize) -> io::Result<()> {
    if 0 < count && count < 32 {
        rt.print(":")?;
        for [a, b, c] in out.as_chunks::<3>().0.iter().take(count) {
            print!(rt; " ({a},{b},{c})")?;
        }
    }
    rt.print("\n")
}
