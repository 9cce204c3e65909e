//! What insert and change refuse, in the order of the tests: 4 before 5, 5 before 6, 6 before 7, and 7 before a lack of cells.
//! None of these changes a word.
use shown::{answer, damaged, lent};
use std::io;

// Insert and change of a key, by their numbers.
fn both(
    rt: &impl Print,
    a: &mut [u64],
    label: &str,
    edition: u64,
    hash: u64,
    key: u64,
) -> io::Result<()> {
    let inserted = answer::number(shelf::insert(a, edition, hash, key, 1));
    let changed = answer::number(shelf::change(a, edition, hash, key, 1));
    print!(rt; "{label}{inserted}, change {changed}")
}

// A slot that is free, and ones that are not there.
fn no_such_edition(rt: &impl Print, a: &mut [u64]) -> io::Result<()> {
    both(rt, a, "  into 2, not held: insert ", 2, 0x16, 2)?;
    both(rt, a, "; into 3: insert ", 3, 0x16, 2)?;
    both(rt, a, "; into 2^64 - 1: insert ", u64::MAX, 0x16, 2)
}

// All slots are held, and no cell is free. A change first wants its key.
fn no_slot(rt: &impl Print, a: &mut [u64]) -> io::Result<()> {
    both(rt, a, "  all slots held, A: insert ", 1, 0x26, 1)?;
    both(rt, a, "; B: insert ", 1, 0x16, 2)?;
    both(rt, a, "; A into the empty edition: insert ", 0, 0x26, 1)
}

fn small(rt: &impl Print, a: &mut [u64]) -> io::Result<()> {
    let _ = shelf::format(a, 16, 1, 1, 3);
    let _ = shelf::new_edition(a);
    answer::say_updated(rt, shelf::insert(a, 0, 0x26, 1, 10))?;
    println!(rt;)
}

fn before_full(rt: &impl Print, a: &mut [u64]) -> io::Result<()> {
    let mut copy = [0u64; 46];
    lent::copy(a, &mut copy);
    damaged::say(rt, a)?;
    lent::say_kept(rt, a, &copy)?;
    no_such_edition(rt, a)?;
    lent::say_kept(rt, a, &copy)?;
    both(rt, a, "  no cell free, A: insert ", 1, 0x26, 1)?;
    lent::say_kept(rt, a, &copy)
}

fn when_full(rt: &impl Print, a: &mut [u64]) -> io::Result<()> {
    let mut copy = [0u64; 46];
    println!(rt;
        "  a share takes the last slot: {}",
        answer::number(shelf::share(a, 1))
    )?;
    lent::copy(a, &mut copy);
    no_slot(rt, a)?;
    lent::say_kept(rt, a, &copy)
}

pub fn show(rt: &impl Print) -> io::Result<()> {
    print!(rt; "Refusals (degree 16, a branch cell, an entry cell, 3 slots)\n  K1")?;
    let mut a = [0u64; 46];
    small(rt, &mut a)?;
    before_full(rt, &mut a)?;
    when_full(rt, &mut a)
}
