//! K1 to K5 in one arena, then the rows of the shelf table that remove, K10 behind them, and "Also run". After each update
//! every edition is listed: the older ones stay as they were.
use crate::shows;
use shown::{answer, entries, listed, steps};
use std::io;

fn to_k5(rt: &impl Print, a: &mut [u64]) -> io::Result<()> {
    steps::before(a, 6);
    answer::say_use(rt, "  K1 to K5: in use", a)?;
    println!(rt;)?;
    listed::first(rt, a, 6)
}

// K7 is edition 6, K8 edition 7, K9 edition 8 and K10 edition 9.
fn to_k10(rt: &impl Print, a: &mut [u64]) -> io::Result<()> {
    shows::remove(rt, a, "  K7, D out of 5", 5, entries::CHAIN, 4)?;
    shows::remove(rt, a, "  K8, E out of 5", 5, entries::CHAIN, 5)?;
    shows::remove(rt, a, "  K9, A out of 2", 2, 0x26, 1)?;
    shows::insert(rt, a, "  K10, A into 8", 8, entries::of_step(1))
}

// K6 is edition 12.
fn also(rt: &impl Print, a: &mut [u64]) -> io::Result<()> {
    let key_6 = entries::an_entry(entries::CHAIN, 6, 60);
    shows::insert(rt, a, "  key 6 under D's hash into 5", 5, key_6)?;
    shows::remove(rt, a, "  key 6 out of 10", 10, entries::CHAIN, 6)?;
    shows::insert(rt, a, "  K6, D with 41 into 5", 5, entries::of_step(6))?;
    shows::remove(rt, a, "  D out of 12", 12, entries::CHAIN, 4)?;
    shows::remove(rt, a, "  A out of 1", 1, 0x26, 1)
}

fn compare(rt: &impl Print, a: &[u64]) -> io::Result<()> {
    answer::say_compared(rt, a, "  K4 and K8:", 4, 7)?;
    answer::say_compared(rt, a, "  K7 and K8:", 6, 7)?;
    answer::say_compared(rt, a, "  K2 and K10:", 2, 9)?;
    answer::say_compared(rt, a, "  K5 and key 6 put in and taken out:", 5, 11)?;
    answer::say_compared(rt, a, "  K7 and D out of K6:", 6, 13)?;
    answer::say_compared(rt, a, "  the empty edition and A out of K1:", 0, 14)
}

// The arena has 110 branch cells, 16 entry cells and 16 slots: 2,246 words.
pub fn show(rt: &impl Print) -> io::Result<()> {
    println!(rt; "Removals from the shelf table (degree 16)")?;
    let mut a = [0u64; 2246];
    let _ = shelf::format(&mut a, 16, 110, 16, 16);
    to_k5(rt, &mut a)?;
    to_k10(rt, &mut a)?;
    also(rt, &mut a)?;
    compare(rt, &a)
}
