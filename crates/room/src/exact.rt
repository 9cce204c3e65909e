//! K2 to K6, each in an arena that has exactly the cells for the steps up to it, and in arenas with one too few of a kind or
//! of both. What is refused changes no word.
use shown::{answer, lent, steps};
use std::io;

// Step n in an arena of so many cells. The largest has 37 branch cells, 7 entry cells and 8 slots.
fn within(rt: &impl Print, label: &str, n: u64, branches: u64, entries: u64) -> io::Result<()> {
    let mut a = [0u64; 781];
    let _ = shelf::format(&mut a, 16, branches, entries, 8);
    steps::before(&mut a, n);
    let mut copy = [0u64; 781];
    lent::copy(&a, &mut copy);
    print!(rt; "{label}")?;
    answer::say_updated(rt, steps::step(&mut a, n))?;
    answer::say_use(rt, "; in use", &a)?;
    lent::say_kept(rt, &a, &copy)
}

// Step n with the cells that the steps up to it need, and with fewer.
fn around(rt: &impl Print, n: u64, branches: u64, entries: u64) -> io::Result<()> {
    println!(rt; "  K{n} needs {branches} {entries}")?;
    let fewer_branches = branches.saturating_sub(1);
    let fewer_entries = entries.saturating_sub(1);
    within(rt, "    these", n, branches, entries)?;
    within(rt, "    a branch cell fewer", n, fewer_branches, entries)?;
    within(rt, "    an entry cell fewer", n, branches, fewer_entries)?;
    within(
        rt,
        "    one of each fewer",
        n,
        fewer_branches,
        fewer_entries,
    )
}

pub fn show(rt: &impl Print) -> io::Result<()> {
    println!(rt; "Exactly the cells needed, and fewer (degree 16)")?;
    for (n, branches, entries) in [(2, 3, 2), (3, 4, 3), (4, 5, 4), (5, 21, 5), (6, 37, 7)] {
        around(rt, n, branches, entries)?;
    }
    Ok(())
}
