//! Room for an update, through the public calls: the steps of the shelf table in arenas with exactly the cells needed and with
//! too few, and all that insert and change refuse, in which order and with no word changed. It stands on `shelf` and prints
//! what the calls answer; the file stdout beside it is what it has to print.

#![tactic(auto)]

mod exact;
mod refusals;

use std::io;

fn main(rt: HostRuntime) -> io::Result<()> {
    exact::show(&rt)?;
    refusals::show(&rt)
}
