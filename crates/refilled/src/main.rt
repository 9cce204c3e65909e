//! Arenas filled until no cell is left, emptied down to one edition and filled again, in several rounds, through the public
//! calls. After each round the edition that is kept lists as before, and in use is what it alone reaches; at the end nothing
//! is, and the first round comes out as it did. It stands on `shelf` and prints what the calls answer; the file stdout beside
//! it is what it has to print.

#![tactic(auto)]

mod fill;
mod kept;
mod keys;
mod rounds;

use std::io;

fn main(rt: HostRuntime) -> io::Result<()> {
    rounds::show(&rt)
}
