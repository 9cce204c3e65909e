//! A small sound arena of a degree: two editions that share cells, one without entries, and a free slot. Two entries have one
//! hash and stand in a chain at the last depth; at degree 2, whose path there would take more cells than the second decision
//! knows, their hashes differ in a low bit.

use shown::entries;
use shown::entries::{CHAIN, Entry};

// An arena of a degree: its branch cells, enough for the path to the last depth, twice; its words; and the hash of the entry
// that is inserted last.
#[derive(Clone, Copy, Debug)]
pub struct Arena {
    pub degree: u64,
    pub branches: u64,
    pub words: usize,
    last_hash: u64,
}

pub const ALL: [Arena; 6] = [
    Arena {
        degree: 2,
        branches: 10,
        words: 110,
        last_hash: 0x700000000000000a,
    },
    Arena {
        degree: 4,
        branches: 64,
        words: 508,
        last_hash: CHAIN,
    },
    Arena {
        degree: 8,
        branches: 46,
        words: 566,
        last_hash: CHAIN,
    },
    Arena {
        degree: 16,
        branches: 34,
        words: 706,
        last_hash: CHAIN,
    },
    Arena {
        degree: 32,
        branches: 28,
        words: 1040,
        last_hash: CHAIN,
    },
    Arena {
        degree: 64,
        branches: 24,
        words: 1668,
        last_hash: CHAIN,
    },
];

pub const ENTRIES: u64 = 6;

pub const SLOTS: u64 = 4;

// The next edition in the place of the one that it is made from.
fn replace(a: &mut [u64], edition: u64, e: Entry) {
    let _ = shelf::insert(a, edition, e.hash, e.key, e.value);
    let _ = shelf::drop(a, edition);
}

// Every edition but the first and the last is dropped where the next is made from it.
pub fn make(a: &mut [u64], arena: Arena) {
    let _ = shelf::format(a, arena.degree, arena.branches, ENTRIES, SLOTS);
    let _ = shelf::new_edition(a);
    let _ = shelf::insert(a, 0, 0x26, 1, 10);
    replace(a, 1, entries::of_step(4));
    replace(a, 2, entries::of_step(3));
    let _ = shelf::insert(a, 1, arena.last_hash, 5, 50);
}
