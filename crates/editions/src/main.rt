//! Editions at work on small arenas, for a person to read: how new ones and shares take their slots at each degree, what a
//! share leaves in the arena, and what is refused, in which order and with no word changed. It stands on `shelf` and prints
//! what the calls answer, as document 01's numbers; the file stdout beside it is what it has to print.

#![tactic(auto)]

mod refusals;
mod shared;
mod sizes;
mod slots;

use std::io;

fn main(rt: HostRuntime) -> io::Result<()> {
    slots::show(&rt)?;
    shared::show(&rt)
}
