//! What remove refuses, in the order of the tests, and each test before a later one that would refuse too: 4 before 5, 5
//! before 6, 6 before 7, 7 before 8 and 8 before 9. None of these changes a word.
use shown::{answer, damaged, entries, lent, steps};
use std::io;

// The words of the arena, and so of its copy: 21 branch cells, 5 entry cells and 7 slots.
const WORDS: usize = 462;

fn remove(
    rt: &impl Print,
    a: &mut [u64],
    label: &str,
    edition: u64,
    hash: u64,
    key: u64,
) -> io::Result<()> {
    let number = answer::number(shelf::remove(a, edition, hash, key));
    print!(rt; "{label}{number}")
}

// A slot that is free, and ones that are not there.
fn no_such_edition(rt: &impl Print, a: &mut [u64]) -> io::Result<()> {
    remove(rt, a, "  key 9 out of 6, not held: ", 6, 0x26, 9)?;
    remove(rt, a, "; out of 7: ", 7, 0x26, 9)?;
    remove(rt, a, "; out of 2^64 - 1: ", u64::MAX, 0x26, 9)
}

// A hash that is nowhere, another key under a hash, a key under another hash; and the empty edition.
fn absent(rt: &impl Print, a: &mut [u64]) -> io::Result<()> {
    remove(rt, a, "  hash 27 out of 5: ", 5, 0x27, 1)?;
    remove(rt, a, "; key 2 under A's hash: ", 5, 0x26, 2)?;
    remove(rt, a, "; key 6 under D's hash: ", 5, entries::CHAIN, 6)?;
    remove(rt, a, "; D's key under hash 42: ", 5, 0x42, 4)?;
    remove(rt, a, "; A out of 0: ", 0, 0x26, 1)
}

// D needs a cell of each kind and A out of 1 needs none.
fn no_slot(rt: &impl Print, a: &mut [u64]) -> io::Result<()> {
    remove(
        rt,
        a,
        "  all slots held, D out of 5: ",
        5,
        entries::CHAIN,
        4,
    )?;
    remove(rt, a, "; A out of 1: ", 1, 0x26, 1)
}

fn with_a_slot(rt: &impl Print, a: &mut [u64]) -> io::Result<()> {
    let mut copy = [0u64; WORDS];
    lent::copy(a, &mut copy);
    damaged::say(rt, a)?;
    lent::say_kept(rt, a, &copy)?;
    no_such_edition(rt, a)?;
    lent::say_kept(rt, a, &copy)
}

fn without_a_slot(rt: &impl Print, a: &mut [u64]) -> io::Result<()> {
    answer::say_made(rt, "  a share takes the last slot:", shelf::share(a, 5))?;
    println!(rt;)?;
    let mut copy = [0u64; WORDS];
    lent::copy(a, &mut copy);
    absent(rt, a)?;
    lent::say_kept(rt, a, &copy)?;
    no_slot(rt, a)?;
    lent::say_kept(rt, a, &copy)
}

// Once an edition is dropped, D out of K5 is refused for another reason.
fn dropped(rt: &impl Print, a: &mut [u64], label: &str, edition: u64) -> io::Result<()> {
    print!(rt; "{label}")?;
    answer::say_dropped(rt, shelf::drop(a, edition))?;
    let mut copy = [0u64; WORDS];
    lent::copy(a, &mut copy);
    remove(rt, a, "; D out of 5: ", 5, entries::CHAIN, 4)?;
    lent::say_kept(rt, a, &copy)
}

// The share has no cell of its own; K1 has its root.
pub fn show(rt: &impl Print) -> io::Result<()> {
    println!(rt; "Refusals (degree 16, K1 to K5, all 21 and 5 cells in use, 7 slots)")?;
    let mut a = [0u64; WORDS];
    let _ = shelf::format(&mut a, 16, 21, 5, 7);
    steps::before(&mut a, 6);
    with_a_slot(rt, &mut a)?;
    without_a_slot(rt, &mut a)?;
    dropped(rt, &mut a, "  the share dropped:", 6)?;
    dropped(rt, &mut a, "  K1 dropped:", 1)?;
    print!(rt; "  E out of 5")?;
    answer::say_updated(rt, shelf::remove(&mut a, 5, entries::CHAIN, 5))?;
    println!(rt;)
}
