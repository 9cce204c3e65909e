//! The path of an update through the branches, a layer of the shelf on `cells`: how many branches the new path has, and the
//! new path itself, copied from the old one with all other children shared.
//!
//! The Rust makes a branch of two entries in one place and copies a branch in another. Here an entry that stands in the way
//! is seen as a branch with one child, itself, and an empty root as one with none (`kids`), so that both are one step.
//!
//! A caller may rely on this: on any words a graft goes no deeper than the degree has depths, writes what its mirror in
//! specs/Grafts.antt says and stays inside the arena, and answers 0 where no cell could be taken.
//!
//! A reference is answered as it is stored, 0 for none: that is document 01's word for it, and what `Wrote` in the mirrors holds.

#![tactic(auto)]

pub mod kids;

ghost use Rattle.std.specs.Prelude.{◌≡◌, true, cond, ◌-◌, ◌≤◌, ◌<◌, ltb, length};
ghost use Rattle.layout.specs.Layout.{Allowed, Lent};
ghost use Rattle.layout.specs.Columns.{columns};
ghost use Rattle.lookup.specs.Lookup.{names_kind};
ghost use Rattle.cells.specs.Mirrors.{Wrote, wrote, listed};
ghost use Rattle.grafts.specs.Grafts.{stops, onward_in, reach_from, IsRow, Blank, NoneFrom, row_at, row_shared, branch_made, child_put, below_put, graft_from};

use cells::{fill, free, shares};
use layout::{Kind, Shape, table, words};
use lookup::links;

// How many branches the path of a new entry has, and which chain stands at its end already: 0 where none does, and where
// the entry takes the place of a single one.
#[derive(Clone, Copy)]
pub struct Reach {
    pub branches: u64,
    pub behind: u64,
}

// Whether the path ends above the last depth, at the one entry that the new one takes the place of.
fn is_end(z: Shape, replaced: bool, r: u64) -> bool
    ensures { result ≡ stops z replaced r }
{
    replaced && links::is_entry(z, r)
}

// The child of a node on the path of a hash, where the path goes on.
pub fn follow(a: &[u64], z: Shape, hash: u64, depth: u64, r: u64) -> Option<u64>
    requires lent { Lent z a.now }
    requires in_depths { depth < z.depths }
    ensures { result ≡ onward_in z (columns z a.now) hash depth r }
{
    let segment = segments::segment_at(hash, depth, z.bits);
    match sparse_array::map_index(kids::bits(a, z, depth, r), segment) {
        Ok(Some(i)) => Some(kids::at(a, z, r, i as u64)),
        Ok(None) => None,
        Err(_) => None,
    }
}

// How far the path of a new entry reaches below a root.
pub fn extent(a: &[u64], z: Shape, hash: u64, replaced: bool, root: u64) -> Reach
    requires { Lent z a.now }
    ensures { result ≡ reach_from z (columns z a.now) hash replaced z.depths 0 root }
{
    let mut r = root;
    for depth in 0..z.depths {
        if is_end(z, replaced, r) {
            return Reach {
                branches: depth,
                behind: 0,
            };
        }
        match follow(a, z, hash, depth, r) {
            Some(child) => {
                r = child;
            }
            None => {
                return Reach {
                    branches: depth + 1,
                    behind: 0,
                };
            }
        }
    }
    Reach {
        branches: z.depths,
        behind: r,
    }
}

// How many places a child goes up in a row: those behind the place of the new one by the gap.
fn rise(at: u64, gap: u64, k: u64) -> u64
    ensures { result ≡ cond (ltb at k) gap 0 }
{
    if at < k { gap } else { 0 }
}

// The children of a branch in a row, with 0 at the place of the new one. One loop goes over all of them: two that copy words in
// one piece each are slower, since a row is short and its words were just written.
fn load_branch(a: &[u64], z: Shape, r: u64, at: u64, gap: u64, row: &mut [u64; 64])
    requires lent { Lent z a.now }
    requires is_branch { names_kind z 0 r ≡ true }
    requires in_row { at < z.degree }
    requires small_gap { gap ≤ 1 }
    ensures { IsRow z.degree (row_at z (columns z a.now) r at gap 0) row.new }
{
    for k in 0..z.degree {
        row[k as usize] = words::word(a, z, r, words::CHILDREN + k - rise(at, gap, k));
    }
    row[at as usize] = 0;
}

// A row with the children of a node, and with 0 where a child is put among them. The row is all 0 before.
fn load(a: &[u64], z: Shape, r: u64, at: u64, gap: u64, row: &mut [u64; 64])
    requires lent { Lent z a.now }
    requires blank { Blank row.old }
    requires in_row { at < z.degree }
    requires small_gap { gap ≤ 1 }
    ensures { IsRow z.degree (row_at z (columns z a.now) r at gap 0) row.new }
{
    if links::is_branch(z, r) {
        load_branch(a, z, r, at, gap, row);
        return;
    }
    if links::is_entry(z, r) {
        // An entry is its own only child. Where the new one is put at its place, it goes up with the gap or is left out.
        if at != 0 {
            row[0] = r;
            return;
        }
        if gap == 1 {
            row[1] = r;
        }
    }
}

// How many words at the front of a row hold all that is not 0, so that no more need be shared: `count`, where the words
// behind are 0, as they are on a sound arena, and else all.
fn filled(z: Shape, count: u64, row: &[u64; 64]) -> u64
    requires allowed { Allowed z }
    ensures in_row { result ≤ z.degree }
    ensures none_behind { NoneFrom result z.degree (listed row.now) }
{
    let mut rest: u64 = 0;
    for k in count..z.degree {
        rest |= row[k as usize];
    }
    if rest == 0 && count < z.degree {
        count
    } else {
        z.degree
    }
}

// The first `n` references of a row are named once more.
pub fn share_row(a: &mut [u64], z: Shape, row: &[u64; 64], n: u64)
    requires lent { Lent z a.old }
    requires in_row { n ≤ z.degree }
    ensures { a.new ≡ row_shared z (listed row.now) n a.old }
{
    let t = table::of(z);
    for k in 0..n {
        shares::share_by(&mut *a, z, &t, row[k as usize]);
    }
}

pub fn new_branch(a: &mut [u64], z: Shape, depth: u64, bitmap: u64, row: &[u64; 64]) -> u64
    requires { Lent z a.old }
    ensures { wrote result a.new ≡ branch_made z a.old depth bitmap (listed row.now) }
{
    let r = free::take(&mut *a, z, Kind::Branch);
    if r == 0 {
        return 0;
    }
    fill::fill_branch(&mut *a, z, r, depth, bitmap, row);
    r
}

// A new branch with the children of a node, all of them shared, but for the one at the hash's segment: that is the one
// given, whether or not another stood there.
pub fn put_child(a: &mut [u64], z: Shape, hash: u64, depth: u64, r: u64, child: u64) -> u64
    requires lent { Lent z a.old }
    requires in_depths { depth < z.depths }
    ensures { wrote result a.new ≡ child_put z hash depth r child a.old }
{
    let segment = segments::segment_at(hash, depth, z.bits);
    let bits = kids::bits(&*a, z, depth, r);
    let gap = kids::gap(bits, segment);
    let at = sparse_array::rank(bits, segment) as u64;
    let mut row = [0u64; 64];
    load(&*a, z, r, at, gap, &mut row);
    let n = filled(z, sparse_array::size(bits) as u64 + gap, &row);
    share_row(&mut *a, z, &row, n);
    row[at as usize] = child;
    new_branch(a, z, depth, kids::with(bits, segment, gap), &row)
}

// The same with what was made below, where that is not 0.
fn put_below(a: &mut [u64], z: Shape, hash: u64, depth: u64, r: u64, below: u64) -> u64
    requires lent { Lent z a.old }
    requires in_depths { depth < z.depths }
    ensures { wrote result a.new ≡ below_put z hash depth r (wrote below a.old) }
{
    if below == 0 {
        return 0;
    }
    put_child(a, z, hash, depth, r, below)
}

// The new path below a node, with a leaf at its end: from branch to child, with the depths left falling, and back up with
// a new branch at each depth. Answers what stands in the node's place.
pub fn graft(
    a: &mut [u64],
    z: Shape,
    hash: u64,
    leaf: u64,
    replaced: bool,
    left: u64,
    r: u64,
) -> u64
    requires lent { Lent z a.old }
    requires in_depths { left ≤ z.depths }
    ensures { wrote result a.new ≡ graft_from z hash leaf replaced left (z.depths - left) r a.old }
{
    if left == 0 {
        return leaf;
    }
    if is_end(z, replaced, r) {
        return leaf;
    }
    let depth = z.depths - left;
    match follow(&*a, z, hash, depth, r) {
        Some(child) => {
            let below = graft(&mut *a, z, hash, leaf, replaced, left - 1, child);
            put_below(a, z, hash, depth, r, below)
        }
        None => put_below(a, z, hash, depth, r, leaf),
    }
}
