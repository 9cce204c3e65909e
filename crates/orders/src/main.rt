//! Sets of editions dropped in every order, through the public calls: the cells that each drop frees, and whether the editions
//! that are left stay as they were and every cell is free at the end. It stands on `shelf` and prints what the calls answer;
//! the file stdout beside it is what it has to print.

#![tactic(auto)]

mod every;
mod free_cells;
mod sets;

use std::io;

fn main(rt: HostRuntime) -> io::Result<()> {
    sets::show(&rt)
}
