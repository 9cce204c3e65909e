//! An update shown: the cells that it took, what is in use behind it, its root, and every edition up to its own.
ghost use Rattle.std.specs.Prelude.{◌<◌};

use shelf::{Refusal, Updated};
use shown::entries::Entry;
use shown::{answer, lent, listed};
use std::io;

// No arena here has more slots.
const SLOTS: u64 = 16;

// What the root of an edition is. A slot has three words, from word 12 on; the second names the root, an entry by an odd
// number.
fn say_root(rt: &impl Print, a: &[u64], edition: u64) -> io::Result<()>
    requires { edition < 16 }
{
    let root = lent::word(a, 13 + 3 * edition as usize);
    if root == 0 {
        return println!(rt; "; root 0");
    }
    if root % 2 == 0 {
        println!(rt; "; root a branch")
    } else {
        println!(rt; "; root an entry")
    }
}

fn editions_to(rt: &impl Print, a: &[u64], edition: u64) -> io::Result<()> {
    if edition < SLOTS {
        say_root(rt, a, edition)?;
        listed::first(rt, a, edition + 1)?;
    }
    Ok(())
}

pub fn update(
    rt: &impl Print,
    a: &[u64],
    label: &str,
    answer: Result<Updated, Refusal>,
) -> io::Result<()> {
    print!(rt; "{label}")?;
    answer::say_updated(rt, answer)?;
    answer::say_use(rt, "; in use", a)?;
    match answer {
        Ok(made) => editions_to(rt, a, made.edition),
        Err(_) => println!(rt;),
    }
}

pub fn remove(
    rt: &impl Print,
    a: &mut [u64],
    label: &str,
    edition: u64,
    hash: u64,
    key: u64,
) -> io::Result<()> {
    let answer = shelf::remove(a, edition, hash, key);
    update(rt, a, label, answer)
}

pub fn insert(
    rt: &impl Print,
    a: &mut [u64],
    label: &str,
    edition: u64,
    e: Entry,
) -> io::Result<()> {
    let answer = shelf::insert(a, edition, e.hash, e.key, e.value);
    update(rt, a, label, answer)
}
