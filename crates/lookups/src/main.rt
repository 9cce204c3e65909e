//! The calls that read, at work on an arena that was laid out by hand: what get finds and misses, what list writes from
//! every place with every room, which editions are equal, and that damaged words end a call. It stands on `shelf` and
//! prints what the calls answer; the file stdout beside it is what it has to print.

#![tactic(auto)]

mod compared;
mod damaged;
mod found;
mod listed;
mod stored;

use std::io;

fn main(rt: HostRuntime) -> io::Result<()> {
    let mut a = [0u64; stored::WORDS];
    stored::lay_out(&mut a);
    stored::show(&rt, &a)?;
    found::show(&rt, &a)?;
    listed::show(&rt, &a)?;
    compared::show(&rt, &a)?;
    damaged::show(&rt, &mut a)
}
