//! Arenas with wrong words behind a right header, through the public calls: every drop on them ends, and keeps to its arena.
//! It stands on `shelf` and prints what the calls answer; the file stdout beside it is what it has to print.

#![tactic(auto)]

mod unsound;

use std::io;

fn main(rt: HostRuntime) -> io::Result<()> {
    unsound::show(&rt)
}
