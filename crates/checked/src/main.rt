//! Sound arenas of every degree through long runs of updates and drops: check answers 0 after each, and the counts that it
//! leaves are those of the cells in use. On small arenas a second decision of soundness, which is by reachability and plainly
//! written, agrees each time. It stands on `shelf` and on `reaches` and prints what the calls answer; the file stdout beside it
//! is what it has to print.

#![tactic(auto)]

mod keys;
mod run;
mod runs;

use std::io;

fn main(rt: HostRuntime) -> io::Result<()> {
    runs::show(&rt)
}
