//! K1 to K6 in one arena, and the two inserts of "Also run". After each insert every edition is listed: the older ones stay
//! as they were.
use crate::names;
use shown::entries::Entry;
use shown::{answer, entries, listed};
use std::io;

// An insert, what is in use behind it, and the first so many editions.
pub fn insert(
    rt: &impl Print,
    a: &mut [u64],
    label: &str,
    edition: u64,
    e: Entry,
    editions: u64,
) -> io::Result<()> {
    print!(rt; "{label}")?;
    answer::say_updated(rt, shelf::insert(a, edition, e.hash, e.key, e.value))?;
    answer::say_use(rt, "; in use", a)?;
    println!(rt;)?;
    listed::first(rt, a, editions)
}

fn to_k3(rt: &impl Print, a: &mut [u64]) -> io::Result<()> {
    insert(rt, a, "  K1, A into 0", 0, entries::of_step(1), 2)?;
    insert(rt, a, "  K2, B into 1", 1, entries::of_step(2), 3)?;
    insert(rt, a, "  K3, C into 2", 2, entries::of_step(3), 4)
}

fn to_k6(rt: &impl Print, a: &mut [u64]) -> io::Result<()> {
    insert(rt, a, "  K4, D into 3", 3, entries::of_step(4), 5)?;
    insert(rt, a, "  K5, E into 4", 4, entries::of_step(5), 6)?;
    insert(rt, a, "  K6, D with 41 into 5", 5, entries::of_step(6), 7)
}

fn also(rt: &impl Print, a: &mut [u64]) -> io::Result<()> {
    let key_6 = entries::an_entry(entries::CHAIN, 6, 60);
    insert(rt, a, "  key 6 under D's hash into 5", 5, key_6, 8)?;
    let key_4 = entries::an_entry(0x42, 4, 40);
    insert(rt, a, "  key 4 under hash 42 into 5", 5, key_4, 9)
}

// The counts of the arena's cells.
pub fn say_counts(rt: &impl Print, a: &[u64]) -> io::Result<()> {
    names::say(rt, a, 54, 2144, 2240)
}

// The arena has 110 branch cells, 16 entry cells and 14 slots: 2,240 words.
pub fn show(rt: &impl Print, a: &mut [u64]) -> io::Result<()> {
    println!(rt; "The shelf table (degree 16)")?;
    let _ = shelf::format(a, 16, 110, 16, 14);
    let _ = shelf::new_edition(a);
    to_k3(rt, a)?;
    to_k6(rt, a)?;
    also(rt, a)?;
    say_counts(rt, a)
}
