// Runs the cases of document 01 for the signs, the intake, the parts and the filter, and prints a line for each.
#![tactic(auto)]

mod print;
mod signs_cases;

use std::io;

fn main(rt: HostRuntime) -> io::Result<()> {
    signs_cases::whole(&rt)?;
    signs_cases::intake(&rt)?;
    signs_cases::points(&rt)?;
    signs_cases::parts(&rt)?;
    signs_cases::filter(&rt)
}
