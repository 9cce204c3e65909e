//! Removals, each in an arena that has exactly the cells for it and for the steps before it, and in arenas with one too few
//! of a kind that it takes. What is refused changes no word.
ghost use Rattle.std.specs.Prelude.{◌≤◌};

use shown::entries::Entry;
use shown::{answer, entries, lent, steps};
use std::io;

// An entry that is taken out of an edition, behind so many steps of the table and, where there is one, behind one more insert.
#[derive(Clone, Copy, Debug)]
struct Row {
    steps: u64,
    more: Option<Entry>,
    edition: u64,
    hash: u64,
    key: u64,
}

// Out of the edition of the last step.
fn behind(steps: u64, hash: u64, key: u64) -> Row {
    Row {
        steps,
        more: None,
        edition: steps,
        hash,
        key,
    }
}

// Out of the edition with key 6, which stands in front of the chain of K5.
fn longer(key: u64) -> Row {
    Row {
        steps: 5,
        more: Some(entries::an_entry(entries::CHAIN, 6, 60)),
        edition: 6,
        hash: entries::CHAIN,
        key,
    }
}

fn prepare(a: &mut [u64], row: Row) {
    let last = row.steps;
    steps::before(a, last.saturating_add(1));
    if let Some(e) = row.more {
        let _ = shelf::insert(a, last, e.hash, e.key, e.value);
    }
}

// The largest arena has 53 branch cells, 8 entry cells and 8 slots.
fn within(rt: &impl Print, label: &str, row: Row, branches: u64, entries: u64) -> io::Result<()> {
    let mut a = [0u64; 1091];
    let _ = shelf::format(&mut a, 16, branches, entries, 8);
    prepare(&mut a, row);
    let mut copy = [0u64; 1091];
    lent::copy(&a, &mut copy);
    print!(rt; "{label}")?;
    answer::say_updated(rt, shelf::remove(&mut a, row.edition, row.hash, row.key))?;
    answer::say_use(rt, "; in use", &a)?;
    lent::say_kept(rt, &a, &copy)
}

fn with_these(
    rt: &impl Print,
    label: &str,
    row: Row,
    branches: u64,
    entries: u64,
) -> io::Result<()> {
    println!(rt; "{label} needs {branches} {entries}")?;
    within(rt, "    these", row, branches, entries)
}

// For a removal that takes branch cells.
fn and_fewer(rt: &impl Print, label: &str, row: Row, branches: u64, entries: u64) -> io::Result<()>
    requires { 1 ≤ branches }
{
    with_these(rt, label, row, branches, entries)?;
    within(rt, "    a branch cell fewer", row, branches - 1, entries)
}

// For a removal that takes cells of both kinds.
fn and_fewer_of_both(
    rt: &impl Print,
    label: &str,
    row: Row,
    branches: u64,
    entries: u64,
) -> io::Result<()>
    requires { (1 ≤ branches) × (1 ≤ entries) }
{
    and_fewer(rt, label, row, branches, entries)?;
    within(rt, "    an entry cell fewer", row, branches, entries - 1)?;
    within(rt, "    one of each fewer", row, branches - 1, entries - 1)
}

// Where a removal takes none of a kind, none of the kind is free.
pub fn show(rt: &impl Print) -> io::Result<()> {
    println!(rt; "Exactly the cells needed, and fewer (degree 16)")?;
    with_these(rt, "  A out of K1", behind(1, 0x26, 1), 1, 1)?;
    with_these(rt, "  K9", behind(2, 0x26, 1), 3, 2)?;
    and_fewer_of_both(rt, "  K7", behind(5, entries::CHAIN, 4), 22, 6)?;
    and_fewer(rt, "  K8", behind(5, entries::CHAIN, 5), 22, 5)?;
    and_fewer(rt, "  D out of K6", behind(6, entries::CHAIN, 4), 38, 7)?;
    and_fewer(rt, "  key 6 out of K5 and key 6", longer(6), 53, 6)?;
    and_fewer_of_both(rt, "  D out of K5 and key 6", longer(4), 53, 8)
}
