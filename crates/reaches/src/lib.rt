//! A second decision of soundness, by reachability, written plainly from document 01: each held root is walked down with the
//! path in hand, each word that names a cell is followed, and the free chains are gone along with a mark for each cell. A layer
//! of the programs, for arenas of at most 64 cells of each kind and 64 slots; nothing of the shelf is used.

#![tactic(auto)]

pub mod names;
pub mod shape;
pub mod shows;

use shape::{Arena, Kind};

// The three memories of a decision.
const CELLS: usize = 128;

const DEPTHS: usize = 64;

// Slot: held (0 or 1), root, size; all 0 if not held. A held root shows a trie with its size.
fn is_slot_right(a: Arena, s: u64) -> bool {
    let held = a.slot_word(s, 0);
    let root = a.slot_word(s, 1);
    let size = a.slot_word(s, 2);
    if held == 0 {
        return root == 0 && size == 0;
    }
    if held != 1 {
        return false;
    }
    if root == 0 {
        return size == 0;
    }
    let mut path = [0u64; DEPTHS];
    shows::entries_below(a, &mut path, 0, root) == Some(size)
}

fn are_slots_right(a: Arena) -> bool {
    (0..a.slots).all(|s| is_slot_right(a, s))
}

fn name_slot(a: Arena, named: &mut [u64], s: u64) {
    if a.slot_word(s, 0) == 1 {
        names::follow(a, named, 140, a.slot_word(s, 1));
    }
}

// Every word of a held slot or a reached cell that names a cell, counted at that cell.
fn name_all(a: Arena, named: &mut [u64]) {
    for s in 0..a.slots {
        name_slot(a, &mut *named, s);
    }
}

// Whether the words of an arena are sound.
pub fn is_sound(words: &[u64]) -> bool {
    let Some(a) = Arena::read(words) else {
        return false;
    };
    if !are_slots_right(a) {
        return false;
    }
    let mut named = [0u64; CELLS];
    name_all(a, &mut named);
    let mut chained = [0u64; CELLS];
    names::is_kind_right(a, &named, &mut chained, Kind::Branch)
        && names::is_kind_right(a, &named, &mut chained, Kind::Entry)
}
