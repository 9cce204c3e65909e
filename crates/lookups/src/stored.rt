//! The arena, laid out by hand: degree 16, 38 branch cells, 9 entry cells, 9 slots. docs/ARENA.md shows it cell by
//! cell. The editions, by slot:
//!
//! 0. K5 of the shelf table, with the chain E, D
//! 1. K4, which shares with K5 all but its root
//! 2. K5 once more, with the same root
//! 3. the entries of K5 with the chain D, E
//! 4. K1: A alone, below a root branch
//! 5. A alone with another value
//! 6. K9: the root is the entry B
//! 7. an edition without entries
//! 8. no edition
ghost use Rattle.std.specs.Prelude.{◌≤◌};

use shown::entries::Entry;
use shown::{answer, entries};
use std::io;

pub const WORDS: usize = 815;

pub const EDITIONS: u64 = 9;

// The words of a slot or a cell, which has `width`; those behind the given ones stay as they are, and none is laid beyond the
// arena. Answers where the next begins.
fn lay(a: &mut [u64], at: usize, width: usize, words: &[u64]) -> usize {
    if let Some(room) = a.get_mut(at..) {
        for (place, word) in room.iter_mut().zip(words) {
            *place = *word;
        }
    }
    at.saturating_add(width)
}

fn slot(a: &mut [u64], at: usize, held: u64, root: u64, size: u64) -> usize {
    lay(a, at, 3, &[held, root, size])
}

// The words before the children, and the first three children.
fn branch(
    a: &mut [u64],
    at: usize,
    count: u64,
    depth: u64,
    bitmap: u64,
    first: u64,
    second: u64,
    third: u64,
) -> usize {
    lay(a, at, 19, &[count, depth, bitmap, first, second, third])
}

fn entry(a: &mut [u64], at: usize, count: u64, length: u64, next: u64, e: Entry) -> usize {
    lay(a, at, 6, &[count, length, next, e.hash, e.key, e.value])
}

// The branches at depths 1 to 15 on the path of D and E, each the only one to name the next; `first` is the reference of
// the first of them.
fn path(a: &mut [u64], from: usize, first: u64, chain: u64) -> usize
    requires { first ≤ 40 }
{
    let mut at = from;
    for depth in 1..15 {
        at = branch(a, at, 1, depth, 1, first + 2 * depth, 0, 0);
    }
    branch(a, at, 1, 15, 128, chain, 0, 0)
}

// K5, K4, K5 once more, and K5 with the chain D, E.
fn large_editions(a: &mut [u64], from: usize) -> usize {
    let mut at = slot(a, from, 1, 2, 5);
    at = slot(a, at, 1, 36, 4);
    at = slot(a, at, 1, 2, 5);
    slot(a, at, 1, 38, 5)
}

// A twice, B, no entry, and a slot that is not held.
fn small_editions(a: &mut [u64], from: usize) -> usize {
    let mut at = slot(a, from, 1, 70, 1);
    at = slot(a, at, 1, 72, 1);
    at = slot(a, at, 1, 5, 1);
    at = slot(a, at, 1, 0, 0);
    slot(a, at, 0, 0, 0)
}

// The branches of K5, then the root of K4.
fn first_branches(a: &mut [u64], from: usize) -> usize {
    let mut at = branch(a, from, 2, 0, 324, 7, 4, 6);
    at = branch(a, at, 3, 1, 6, 5, 3, 0);
    at = path(a, at, 6, 11);
    branch(a, at, 1, 0, 324, 7, 4, 9)
}

// The root of edition 3 and its own path, the roots over A alone, and the free cells.
fn other_branches(a: &mut [u64], from: usize) -> usize {
    let mut at = branch(a, from, 1, 0, 324, 7, 4, 40);
    at = path(a, at, 40, 15);
    at = branch(a, at, 1, 0, 64, 3, 0, 0);
    at = branch(a, at, 1, 0, 64, 17, 0, 0);
    at = branch(a, at, 0, 76, 0, 0, 0, 0);
    branch(a, at, 0, 0, 0, 0, 0, 0)
}

// A to E, as the shelf table has them.
fn first_entries(a: &mut [u64], from: usize) -> usize {
    let mut at = entry(a, from, 2, 1, 0, entries::of_step(1));
    at = entry(a, at, 2, 1, 0, entries::of_step(2));
    at = entry(a, at, 3, 1, 0, entries::of_step(3));
    at = entry(a, at, 2, 1, 0, entries::of_step(4));
    entry(a, at, 1, 2, 9, entries::of_step(5))
}

// E and D of edition 3, A of edition 5, and the free cell.
fn other_entries(a: &mut [u64], from: usize) {
    let mut at = entry(a, from, 1, 1, 0, entries::of_step(5));
    at = entry(a, at, 1, 2, 13, entries::of_step(4));
    at = entry(a, at, 1, 1, 0, entries::an_entry(0x26, 1, 11));
    entry(a, at, 0, 0, 0, entries::an_entry(0, 0, 0));
}

pub fn lay_out(a: &mut [u64]) {
    let mut at = lay(a, 0, 12, &[1, 16, 38, 9, 9, 12, 39, 761, 74, 19, 36, 8]);
    at = large_editions(a, at);
    at = small_editions(a, at);
    at = first_branches(a, at);
    at = other_branches(a, at);
    at = first_entries(a, at);
    other_entries(a, at);
}

pub fn show(rt: &impl Print, a: &[u64]) -> io::Result<()> {
    answer::say_use(rt, "Cells in use", a)?;
    println!(rt;)
}
