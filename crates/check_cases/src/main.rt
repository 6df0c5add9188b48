// Runs the cases of document 01 for the checker, and prints a line for each.
#![tactic(auto)]

mod checker_cases;

use std::io;

fn main(rt: HostRuntime) -> io::Result<()> {
    checker_cases::all(&rt)
}
