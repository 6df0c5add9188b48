// Runs the cases of document 01 that take many points or many pairs through the cutter.
#![tactic(auto)]

mod figures;
mod limits;

use std::io;

fn main(rt: HostRuntime) -> io::Result<()> {
    limits::all(&rt)?;
    figures::all(&rt)
}
