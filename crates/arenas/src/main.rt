//! Format at work on small arenas, for a person to read: which degrees and sizes it accepts, which fault it names first, and
//! what words it writes. It stands on `shelf` and prints what the calls answer, as document 01's numbers; the file stdout
//! beside it is what it has to print.

#![tactic(auto)]

mod degrees;
mod free_chains;
mod sizes;
mod smallest;

use std::io;

fn main(rt: HostRuntime) -> io::Result<()> {
    degrees::show(&rt)?;
    sizes::show(&rt)?;
    smallest::show(&rt)?;
    free_chains::show(&rt)
}
