//! What drop refuses, in the order of the tests: 4 before 5. Neither changes a word. A number means the edition last put in
//! its slot: what was dropped is not there, until the slot is held again.
use shown::{answer, damaged, lent, steps};
use std::io;

// The words of the arena, and so of its copy: 21 branch cells, 5 entry cells and 7 slots.
const WORDS: usize = 462;

fn let_go(rt: &impl Print, a: &mut [u64], label: &str, edition: u64) -> io::Result<()> {
    print!(rt; "{label}")?;
    answer::say_dropped(rt, shelf::drop(a, edition))
}

fn refused(rt: &impl Print, a: &mut [u64]) -> io::Result<()> {
    let mut copy = [0u64; WORDS];
    lent::copy(a, &mut copy);
    damaged::say(rt, a)?;
    lent::say_kept(rt, a, &copy)?;
    let_go(rt, a, "  6, not held:", 6)?;
    let_go(rt, a, "; 7:", 7)?;
    let_go(rt, a, "; 2^64 - 1:", u64::MAX)?;
    lent::say_kept(rt, a, &copy)
}

fn twice(rt: &impl Print, a: &mut [u64]) -> io::Result<()> {
    let_go(rt, a, "  3:", 3)?;
    let mut copy = [0u64; WORDS];
    lent::copy(a, &mut copy);
    let_go(rt, a, "; 3 again:", 3)?;
    lent::say_kept(rt, a, &copy)
}

fn held_again(rt: &impl Print, a: &mut [u64]) -> io::Result<()> {
    answer::say_made(rt, "  a new edition:", shelf::new_edition(a))?;
    let_go(rt, a, "; 3:", 3)?;
    answer::say_use(rt, "; in use", a)?;
    println!(rt;)
}

pub fn show(rt: &impl Print) -> io::Result<()> {
    println!(rt; "Refusals (degree 16, K1 to K5, 7 slots)")?;
    let mut a = [0u64; WORDS];
    let _ = shelf::format(&mut a, 16, 21, 5, 7);
    steps::before(&mut a, 6);
    refused(rt, &mut a)?;
    twice(rt, &mut a)?;
    held_again(rt, &mut a)
}
