//! One word of the arena changed: every call ends, with an answer of the table.
use crate::compared;
use shown::answer;
use std::io;

fn tried(rt: &impl Print, a: &[u64], label: &str) -> io::Result<()> {
    print!(rt; "{label}: get")?;
    answer::say_counted(rt, shelf::get(a, 0, 0x7000000000000008, 6))?;
    let mut out = [0u64; 180];
    print!(rt; ", list")?;
    answer::say_counted(rt, shelf::list(a, 0, 0, &mut out))?;
    print!(rt; ", equal")?;
    compared::say(rt, shelf::equal(a, 0, 3))?;
    println!(rt;)
}

// The calls with another word at a place, which is put back.
fn with(rt: &impl Print, a: &mut [u64], label: &str, at: usize, word: u64) -> io::Result<()> {
    if at < a.len() {
        let before = a[at];
        a[at] = word;
        tried(rt, a, label)?;
        a[at] = before;
    }
    Ok(())
}

fn header_and_slot(rt: &impl Print, a: &mut [u64]) -> io::Result<()> {
    with(rt, a, "  none", 0, 1)?;
    with(rt, a, "  layout 2", 0, 2)?;
    with(rt, a, "  edition 0 not held", 12, 7)?;
    with(rt, a, "  the root names no cell", 13, 78)
}

fn root_branch(rt: &impl Print, a: &mut [u64]) -> io::Result<()> {
    with(rt, a, "  the root names itself", 42, 2)?;
    with(rt, a, "  its bitmap is full", 41, u64::MAX)?;
    with(rt, a, "  its second child is missing", 43, 0)
}

fn chain_and_path(rt: &impl Print, a: &mut [u64]) -> io::Result<()> {
    with(rt, a, "  a chain without end", 787, 11)?;
    with(rt, a, "  a chain that leads to a branch", 787, 2)?;
    with(rt, a, "  a path without end", 80, 6)
}

pub fn show(rt: &impl Print, a: &mut [u64]) -> io::Result<()> {
    println!(rt; "With one word changed")?;
    header_and_slot(rt, a)?;
    root_branch(rt, a)?;
    chain_and_path(rt, a)
}
