//! Removals, through the public calls: K7 to K10 of the shelf table and the removals of its "Also run", with the cells that
//! each takes, what its root is and what every edition lists behind it; and an edition whose root is an entry. It stands on
//! `shelf` and prints what the calls answer; the file stdout beside it is what it has to print.

#![tactic(auto)]

mod root;
mod rows;
mod shows;

use std::io;

fn main(rt: HostRuntime) -> io::Result<()> {
    rows::show(&rt)?;
    root::show(&rt)
}
