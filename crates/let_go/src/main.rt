//! Drops, through the public calls: K1 to K5 let go one by one, with the cells that each frees and what the editions left
//! list; and what drop refuses, with no word changed. It stands on `shelf` and prints what the calls answer; the file stdout
//! beside it is what it has to print.

#![tactic(auto)]

mod alone;
mod refusals;

use std::io;

fn main(rt: HostRuntime) -> io::Result<()> {
    alone::show(&rt)?;
    refusals::show(&rt)
}
