//! Small sound arenas with one word changed, each word in turn and to several values: what check answers, and what a second
//! decision of soundness says, which is by reachability and plainly written. It stands on `shelf` and on `reaches`; the file
//! stdout beside it is what it has to print.

#![tactic(auto)]

mod small;
mod turns;

use std::io;

fn main(rt: HostRuntime) -> io::Result<()> {
    turns::show(&rt)
}
