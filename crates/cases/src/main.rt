// Runs the cases of document 01 through the cutter: the sheets and refusals that it names, each row of the table, the order of its rows, the
// limits, and small figures whose pairs are hard to recover.
#![tactic(auto)]

mod limits;
mod pairs;
mod proved;
mod refusals;

use std::io;

fn main(rt: HostRuntime) -> io::Result<()> {
    proved::all(&rt)?;
    refusals::all(&rt)?;
    limits::all(&rt)?;
    runs::small(&rt, &pairs::CASES)
}
