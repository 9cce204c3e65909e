//! The sets of editions that are dropped in every order, each in an arena with exactly the cells that it needs.
ghost use Rattle.std.specs.Prelude.{◌≤◌};

use crate::every;
use crate::every::Set;
use shown::{entries, steps};
use std::io;

// The editions before one.
fn drop_before(a: &mut [u64], edition: u64) {
    for i in 0..edition {
        let _ = shelf::drop(a, i);
    }
}

// K1 up to a step, in slots 1 and on.
fn first_steps(a: &mut [u64], last: u64) {
    steps::before(a, last.saturating_add(1));
    drop_before(a, 1);
}

// K9 in slot 0, a share of it in slot 1, K2 in slot 2, and K10 in slot 3.
fn roots(a: &mut [u64]) {
    steps::before(a, 3);
    drop_before(a, 2);
    let _ = shelf::remove(a, 2, 0x26, 1);
    let _ = shelf::share(a, 0);
    let _ = shelf::insert(a, 0, 0x26, 1, 10);
}

// K7 in slot 0, K8 in slot 1, and K5 in slot 5.
fn short_chains(a: &mut [u64]) {
    steps::before(a, 6);
    drop_before(a, 5);
    let _ = shelf::remove(a, 5, entries::CHAIN, 4);
    let _ = shelf::remove(a, 5, entries::CHAIN, 5);
}

// K5 with key 6 in slot 0, without it again in slot 1, and K5 in slot 5.
fn long_chains(a: &mut [u64]) {
    steps::before(a, 6);
    drop_before(a, 5);
    let _ = shelf::insert(a, 5, entries::CHAIN, 6, 60);
    let _ = shelf::remove(a, 0, entries::CHAIN, 6);
}

fn set(branches: u64, entries: u64, editions: u64) -> Set {
    Set {
        branches,
        entries,
        editions,
    }
}

// A set in an arena of so many words.
fn tried<F: Fn(&mut [u64])>(
    rt: &impl Print,
    label: &str,
    words: usize,
    set: Set,
    make: F,
) -> io::Result<()>
    requires most { words ≤ 997 }
    requires callable { F.IsAlwaysCallable make }
{
    println!(rt; "{label}")?;
    let mut room = [0u64; every::WORDS];
    let a = &mut room[..words];
    let _ = shelf::format(a, 16, set.branches, set.entries, 6);
    make(a);
    every::order(rt, a, set)
}

pub fn show(rt: &impl Print) -> io::Result<()> {
    println!(rt; "Editions dropped in every order (degree 16)")?;
    tried(
        rt,
        "  K1, K2 and K3",
        124,
        set(4, 3, 3),
        |a| first_steps(a, 3),
    )?;
    tried(
        rt,
        "  K1, K2, K3 and K4",
        149,
        set(5, 4, 4),
        |a| first_steps(a, 4),
    )?;
    tried(
        rt,
        "  K9, a share of K9, K2 and K10",
        124,
        set(4, 3, 4),
        roots,
    )?;
    tried(rt, "  K7, K8 and K5", 465, set(21, 6, 3), short_chains)?;
    let long = "  K5 with key 6, without key 6 again, and K5";
    tried(rt, long, 997, set(49, 6, 3), long_chains)
}
