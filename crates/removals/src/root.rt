//! K9, whose root is an entry: what is inserted into it, changed in it and taken out of it.
use crate::shows;
use shown::{entries, steps};
use std::io;

fn inserts(rt: &impl Print, a: &mut [u64]) -> io::Result<()> {
    shows::insert(rt, a, "  K10, A into 3", 3, entries::of_step(1))?;
    shows::insert(
        rt,
        a,
        "  B with 21 into 3",
        3,
        entries::an_entry(0x16, 2, 21),
    )?;
    let key_3 = entries::an_entry(0x16, 3, 30);
    shows::insert(rt, a, "  key 3 under B's hash into 3", 3, key_3)?;
    shows::insert(rt, a, "  C into 3", 3, entries::of_step(3))
}

fn change(rt: &impl Print, a: &mut [u64]) -> io::Result<()> {
    let answer = shelf::change(a, 3, 0x16, 2, 22);
    shows::update(rt, a, "  B changed to 22 in 3", answer)
}

// The chain of two becomes a single, and the path above it goes; the two behind it leave nothing.
fn removes(rt: &impl Print, a: &mut [u64]) -> io::Result<()> {
    shows::remove(rt, a, "  key 3 out of 6", 6, 0x16, 3)?;
    shows::remove(rt, a, "  B out of 3", 3, 0x16, 2)?;
    shows::remove(rt, a, "  B out of 8", 8, 0x16, 2)
}

// The arena has the 22 branch cells, 7 entry cells and 12 slots that are needed: 508 words.
pub fn show(rt: &impl Print) -> io::Result<()> {
    println!(rt; "A root that is the entry B (degree 16)")?;
    let mut a = [0u64; 508];
    let _ = shelf::format(&mut a, 16, 22, 7, 12);
    steps::before(&mut a, 3);
    shows::remove(rt, &mut a, "  K9, A out of 2", 2, 0x26, 1)?;
    inserts(rt, &mut a)?;
    change(rt, &mut a)?;
    removes(rt, &mut a)
}
