//! Changes in the arena of the table, each on K5, which is edition 5; and entries written again with the values that they
//! have. Editions 0 to 8 stay as they were.
use crate::steps;
use shown::entries::Entry;
use shown::{answer, entries, listed};
use std::io;

fn change(rt: &impl Print, a: &mut [u64], label: &str, e: Entry) -> io::Result<()> {
    print!(rt; "{label}")?;
    answer::say_updated(rt, shelf::change(a, 5, e.hash, e.key, e.value))?;
    answer::say_use(rt, "; in use", a)?;
    println!(rt;)
}

fn absent(rt: &impl Print, a: &mut [u64]) -> io::Result<()> {
    let key_6 = entries::an_entry(entries::CHAIN, 6, 60);
    change(rt, a, "  key 6", key_6)?;
    let key_4 = entries::an_entry(0x42, 4, 40);
    change(rt, a, "  D's key under hash 42", key_4)?;
    let key_1 = entries::an_entry(entries::CHAIN, 1, 1);
    change(rt, a, "  D's hash with A's key", key_1)
}

fn present(rt: &impl Print, a: &mut [u64]) -> io::Result<()> {
    change(rt, a, "  D to 41", entries::of_step(6))?;
    change(rt, a, "  E to 50 again", entries::of_step(5))?;
    change(rt, a, "  C to 33", entries::an_entry(0x42, 3, 33))?;
    steps::insert(
        rt,
        a,
        "  A with 10 again, inserted",
        5,
        entries::of_step(1),
        0,
    )
}

fn compare_all(rt: &impl Print, a: &[u64]) -> io::Result<()> {
    answer::say_compared(rt, a, "  K6 and D to 41:", 6, 9)?;
    answer::say_compared(rt, a, "  K5 and D to 41:", 5, 9)?;
    answer::say_compared(rt, a, "  K5 and E to 50 again:", 5, 10)?;
    answer::say_compared(rt, a, "  K5 and C to 33:", 5, 11)?;
    answer::say_compared(rt, a, "  K5 and A with 10 again:", 5, 12)
}

pub fn show(rt: &impl Print, a: &mut [u64]) -> io::Result<()> {
    println!(rt; "Changes of K5")?;
    absent(rt, a)?;
    present(rt, a)?;
    compare_all(rt, a)?;
    listed::first(rt, a, 14)?;
    steps::say_counts(rt, a)
}
