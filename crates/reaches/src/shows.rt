//! What a reference shows, with the path to it in hand.
use crate::shape;
use crate::shape::Arena;

// Whether the hash of an entry has the segments of the path.
fn is_under(a: Arena, path: &[u64], depth: u64, r: u64) -> bool {
    let bits = a.bits % 8;
    let mut rest = a.word(r, 3);
    for t in 0..depth {
        let above = rest >> bits;
        if rest ^ (above << bits) != shape::at(path, t) {
            return false;
        }
        rest = above;
    }
    true
}

// Whether an entry stands before another with its hash and key, in a chain of at most 64.
fn is_twice(a: Arena, r: u64) -> bool {
    let hash = a.word(r, 3);
    let key = a.word(r, 4);
    let mut q = a.word(r, 2);
    for _ in 0..64 {
        if q == 0 {
            return false;
        }
        if a.word(q, 3) == hash && a.word(q, 4) == key {
            return true;
        }
        q = a.word(q, 2);
    }
    false
}

fn is_item_right(a: Arena, path: &[u64], depth: u64, r: u64) -> bool {
    a.is_entry(r) && is_under(a, path, depth, r) && !is_twice(a, r)
}

// The number of entries of a chain, whose cells have lengths that fall to 1; none for a fault.
fn entries_on(a: Arena, path: &[u64], depth: u64, front: u64) -> Option<u64> {
    let length = a.word(front, 1);
    if length > 64 || (length > 1 && depth != a.depths) {
        return None;
    }
    let mut r = front;
    for left in (1..=length).rev() {
        if !is_item_right(a, path, depth, r) || a.word(r, 1) != left {
            return None;
        }
        r = a.word(r, 2);
    }
    (r == 0).then_some(length)
}

fn is_single(a: Arena, r: u64) -> bool {
    a.is_entry(r) && a.word(r, 2) == 0
}

// Behind its children a branch has zeros.
fn is_packed(a: Arena, r: u64, children: u64) -> bool {
    (children..a.degree).all(|k| a.word(r, 3 + k % 64) == 0)
}

// Not empty, packed, and below the root no single that is the only child.
fn is_whole(a: Arena, depth: u64, r: u64, children: u64) -> bool {
    children != 0
        && !(depth > 0 && children == 1 && is_single(a, a.word(r, 3)))
        && is_packed(a, r, children)
}

// The number of entries below a reference at a depth; none for a fault.
pub fn entries_below(a: Arena, path: &mut [u64], depth: u64, r: u64) -> Option<u64> {
    if a.is_entry(r) {
        return entries_on(a, &*path, depth, r);
    }
    if !a.is_branch(r) || depth >= a.depths || depth >= 64 || a.word(r, 1) != depth {
        return None;
    }
    let bitmap = a.word(r, 2);
    let mut children: u64 = 0;
    let mut entries: u64 = 0;
    for s in 0..64 {
        if (bitmap >> s) % 2 == 1 {
            if s >= a.degree {
                return None;
            }
            shape::put(&mut *path, depth, s);
            let child = a.word(r, 3 + children % 64);
            let below = entries_below(a, &mut *path, depth + 1, child)?;
            entries = entries.checked_add(below)?;
            children = children.saturating_add(1);
        }
    }
    is_whole(a, depth, r, children).then_some(entries)
}
