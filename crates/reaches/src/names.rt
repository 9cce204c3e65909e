//! Which cells are reached, how often each is named, and the free chains of the others.
use crate::shape;
use crate::shape::{Arena, Kind};

// A word that names a cell: one more for the cell, and where it is the first, its own words are followed.
pub fn follow(a: Arena, named: &mut [u64], fuel: u64, r: u64) {
    if fuel == 0 || !a.is_cell(r) {
        return;
    }
    let before = shape::at(&*named, shape::index(r));
    shape::put(&mut *named, shape::index(r), before.saturating_add(1));
    if before != 0 {
        return;
    }
    match shape::kind_of(r) {
        Kind::Branch => {
            for k in 0..a.degree {
                follow(a, &mut *named, fuel - 1, a.word(r, 3 + k % 64));
            }
        }
        Kind::Entry => follow(a, named, fuel - 1, a.word(r, 2)),
    }
}

// Free cell: first word 0, second the next free reference, the rest 0.
fn is_rest_zero(a: Arena, r: u64) -> bool {
    (2..a.width(shape::kind_of(r))).all(|place| a.word(r, place) == 0)
}

// Marks the cells of a free chain, as far as it goes through cells of the kind that are not named; answers how many, where
// it ends.
fn chain_length(a: Arena, named: &[u64], chained: &mut [u64], kind: Kind) -> Option<u64> {
    let mut r = a.free(kind);
    for n in 0..100 {
        if r == 0 {
            return Some(n);
        }
        let i = shape::index(r);
        if shape::kind_of(r) != kind || !a.is_cell(r) {
            return None;
        }
        if shape::at(named, i) != 0 || shape::at(&*chained, i) != 0 {
            return None;
        }
        shape::put(&mut *chained, i, 1);
        r = a.word(r, 1);
    }
    None
}

// A cell of a kind: its count is how often it is named, and one that is not named is free.
fn is_cell_right(a: Arena, named: &[u64], chained: &[u64], r: u64) -> bool {
    let times = shape::at(named, shape::index(r));
    if a.word(r, 0) != times {
        return false;
    }
    times != 0 || (shape::at(chained, shape::index(r)) == 1 && is_rest_zero(a, r))
}

// All cells of a kind; the header counts those that are named.
pub fn is_kind_right(a: Arena, named: &[u64], chained: &mut [u64], kind: Kind) -> bool {
    let Some(free) = chain_length(a, named, &mut *chained, kind) else {
        return false;
    };
    let mut used: u64 = 0;
    for i in 0..a.cells(kind) {
        let r = shape::reference(kind, i);
        if !is_cell_right(a, named, &*chained, r) {
            return false;
        }
        if shape::at(named, shape::index(r)) != 0 {
            used = used.saturating_add(1);
        }
    }
    free <= 64 && a.used(kind) == used
}
