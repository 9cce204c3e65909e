//! The shelf table of document 01 on real arenas, through the public calls: K1 to K6, K11 and K12 with the cells that
//! each insert takes, what every edition lists afterwards, what is in use and how often cells are named; and changes. It
//! stands on `shelf` and prints what the calls answer; the file stdout beside it is what it has to print.

#![tactic(auto)]

mod changes;
mod far;
mod names;
mod steps;

use std::io;

fn main(rt: HostRuntime) -> io::Result<()> {
    let mut a = [0u64; 2240];
    steps::show(&rt, &mut a)?;
    changes::show(&rt, &mut a)?;
    far::show(&rt)
}
