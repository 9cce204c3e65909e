//! The path of a removal through the branches, a layer of the shelf on `grafts`: what will be left on it, and the new path
//! itself. A child that is emptied leaves its branch, and a branch whose only child is a single becomes that single, root
//! included; everything off the path is shared.
//!
//! A caller may rely on this: on any words a removal goes no deeper than the degree has depths, writes what its mirror in
//! specs/Prunes.antt says and stays inside the arena, and answers 0 where no cell could be taken.
//!
//! A reference is answered as it is stored, 0 for none: that is document 01's word for it, and what `Wrote` in the mirrors holds.

#![tactic(auto)]

ghost use Rattle.std.specs.Prelude.{◌≡◌, ◌-◌, ◌*◌, ◌^◌, ◌≤◌, ◌<◌, length};
ghost use Rattle.sparse_array.specs.Bitmap.{bit};
ghost use Rattle.layout.specs.Layout.{Lent};
ghost use Rattle.layout.specs.Columns.{columns};
ghost use Rattle.cells.specs.Mirrors.{Wrote, wrote};
ghost use Rattle.grafts.specs.Grafts.{IsRow};
ghost use Rattle.prunes.specs.Prunes.{is_a_single, is_the_only, out_at, is_lone, left_of_chain, left_of_cut, left_of_settled, left_from, place_at, is_coming_up, child_settled, below_settled, cut_at, child_cut, is_emptied, prune_from};

use cells::shares;
use grafts::kids;
use layout::{Shape, words};
use lookup::links;

// What is left of a node when an entry is taken out: nothing, a single, or more, with so many branches on the path.
// Three outcomes, so no `Option`.
#[derive(Clone, Copy)]
pub enum Left {
    Nothing,
    Single,
    More(u64),
}

// Whether a reference names an entry with none behind it.
#[tactic(auto, using(lookup::proofs::FindLaws::has_part), unfolding(crate::specs::Prunes::is_a_single))]
fn is_single(a: &[u64], z: Shape, r: u64) -> bool
    requires { Lent z a.now }
    ensures { result ≡ is_a_single z (columns z a.now) r }
{
    links::is_entry(z, r) && words::word(a, z, r, words::MARK) == 1
}

// Whether a branch has no more than one child.
#[tactic(auto, unfolding(crate::specs::Prunes::is_the_only))]
fn is_only(a: &[u64], z: Shape, r: u64) -> bool
    requires { Lent z a.now }
    ensures { result ≡ is_the_only z (columns z a.now) r }
{
    kids::at(a, z, r, 1) == 0
}

// Child `k` of a branch once the one at place `at` is taken out.
#[tactic(auto, unfolding(crate::specs::Prunes::row_out))]
fn out(a: &[u64], z: Shape, r: u64, at: u64, k: u64) -> u64
    requires lent { Lent z a.now }
    requires in_row { k < 64 }
    ensures { result ≡ out_at z (columns z a.now) r at k }
{
    if k < at {
        return kids::at(a, z, r, k);
    }
    kids::at(a, z, r, k + 1)
}

// Whether a single is all that is left of a branch once the child at a place is taken out.
#[tactic(auto, unfolding(crate::specs::Prunes::is_lone))]
fn leaves_single(a: &[u64], z: Shape, r: u64, at: u64) -> bool
    requires { Lent z a.now }
    ensures { result ≡ is_lone z (columns z a.now) r at }
{
    out(a, z, r, at, 1) == 0 && is_single(a, z, out(a, z, r, at, 0))
}

// The place of the child at a hash's segment.
fn place(a: &[u64], z: Shape, hash: u64, depth: u64, r: u64) -> u64
    requires lent { Lent z a.now }
    requires in_depths { depth < z.depths }
    ensures { result ≡ place_at z (columns z a.now) hash depth r }
{
    let segment = segments::segment_at(hash, depth, z.bits);
    sparse_array::rank(kids::bits(a, z, depth, r), segment) as u64
}

// What is left of a chain, by its length.
#[tactic(auto, unfolding(crate::specs::Prunes::left_of_chain))]
fn chain_left(length: u64) -> Left
    ensures { result ≡ left_of_chain length }
{
    if length == 0 {
        return Left::Nothing;
    }
    if length == 1 {
        return Left::Single;
    }
    Left::More(0)
}

// What is left of a branch whose child on the path is emptied.
#[tactic(auto, unfolding(crate::specs::Prunes::left_of_cut))]
fn cut_left(a: &[u64], z: Shape, hash: u64, depth: u64, r: u64) -> Left
    requires lent { Lent z a.now }
    requires in_depths { depth < z.depths }
    ensures { result ≡ left_of_cut z (columns z a.now) hash depth r }
{
    let at = place(a, z, hash, depth, r);
    if out(a, z, r, at, 0) == 0 {
        return Left::Nothing;
    }
    if leaves_single(a, z, r, at) {
        return Left::Single;
    }
    Left::More(1)
}

// What is left of a branch, by what is left of its child on the path.
#[tactic(auto, unfolding(crate::specs::Prunes::left_of_settled))]
fn settled_left(a: &[u64], z: Shape, hash: u64, depth: u64, r: u64, below: Left) -> Left
    requires lent { Lent z a.now }
    requires in_depths { depth < z.depths }
    ensures { result ≡ left_of_settled z (columns z a.now) hash depth r below }
{
    match below {
        Left::Nothing => cut_left(a, z, hash, depth, r),
        Left::Single => {
            if is_only(a, z, r) {
                return Left::Single;
            }
            Left::More(1)
        }
        Left::More(branches) => Left::More(shares::more(branches)),
    }
}

// What is left below a node, if `length` entries are left of the chain at the end of the hash's path.
pub fn left_of(a: &[u64], z: Shape, hash: u64, length: u64, left: u64, r: u64) -> Left
    requires lent { Lent z a.now }
    requires in_depths { left ≤ z.depths }
    ensures { result ≡ left_from z (columns z a.now) hash length left (z.depths - left) r }
{
    if left == 0 {
        return chain_left(length);
    }
    if links::is_entry(z, r) {
        return chain_left(length);
    }
    let depth = z.depths - left;
    match grafts::follow(a, z, hash, depth, r) {
        Some(child) => {
            let below = left_of(a, z, hash, length, left - 1, child);
            settled_left(a, z, hash, depth, r, below)
        }
        None => Left::More(0),
    }
}

// Whether a branch becomes its child: a single, and the only one.
fn comes_up(a: &[u64], z: Shape, r: u64, child: u64) -> bool
    requires { Lent z a.now }
    ensures { result ≡ is_coming_up z (columns z a.now) r child }
{
    is_only(a, z, r) && is_single(a, z, child)
}

// A branch with another child on the path: that child itself, where it is a single and the only one.
#[tactic(auto, unfolding(crate::specs::Prunes::child_settled))]
fn settle_child(a: &mut [u64], z: Shape, hash: u64, depth: u64, r: u64, child: u64) -> u64
    requires lent { Lent z a.old }
    requires in_depths { depth < z.depths }
    ensures { wrote result a.new ≡ child_settled z hash depth r child a.old }
{
    if comes_up(&*a, z, r, child) {
        return child;
    }
    grafts::put_child(a, z, hash, depth, r, child)
}

// The same with what was made below, where that is not 0.
#[tactic(auto, using(grafts::proofs::StepLaws::below_none, grafts::proofs::StepLaws::below_some))]
fn settle_below(a: &mut [u64], z: Shape, hash: u64, depth: u64, r: u64, below: u64) -> u64
    requires lent { Lent z a.old }
    requires in_depths { depth < z.depths }
    ensures { wrote result a.new ≡ below_settled z hash depth r (wrote below a.old) }
{
    if below == 0 {
        return 0;
    }
    settle_child(a, z, hash, depth, r, below)
}

fn load(a: &[u64], z: Shape, r: u64, at: u64, row: &mut [u64; 64])
    requires { Lent z a.now }
    ensures { IsRow z.degree (out_at z (columns z a.now) r at) row.new }
{
    for k in 0..z.degree {
        row[k as usize] = out(a, z, r, at, k);
    }
}

// The bitmap without a segment's bit, which it has.
fn without(bits: u64, segment: u64) -> u64
    requires { segment < 64 }
    ensures { result ≡ bits - bit bits segment * 2 ^ segment }
{
    bits - (bits & (1u64 << segment))
}

// A new branch with the children of a branch, all of them shared, but for the one at a segment.
fn cut_branch(a: &mut [u64], z: Shape, segment: u64, depth: u64, r: u64, at: u64) -> u64
    requires lent { Lent z a.old }
    requires in_depths { depth < z.depths }
    requires in_bitmap { segment < 64 }
    ensures { wrote result a.new ≡ cut_at z segment depth r at a.old }
{
    let bits = kids::bits(&*a, z, depth, r);
    let mut row = [0u64; 64];
    load(&*a, z, r, at, &mut row);
    grafts::share_row(&mut *a, z, &row, z.degree);
    grafts::new_branch(a, z, depth, without(bits, segment), &row)
}

// A branch without its child on the path: the one child that is left, where it is a single.
#[tactic(auto, using(lookup::proofs::Meaning::segment_low), unfolding(crate::specs::Prunes::child_cut))]
fn cut_child(a: &mut [u64], z: Shape, hash: u64, depth: u64, r: u64) -> u64
    requires lent { Lent z a.old }
    requires in_depths { depth < z.depths }
    ensures { wrote result a.new ≡ child_cut z hash depth r a.old }
{
    let at = place(&*a, z, hash, depth, r);
    if leaves_single(&*a, z, r, at) {
        let child = out(&*a, z, r, at, 0);
        shares::share(&mut *a, z, child);
        return child;
    }
    cut_branch(
        a,
        z,
        segments::segment_at(hash, depth, z.bits),
        depth,
        r,
        at,
    )
}

// Whether a child is the chain at the end of the path, and nothing is left of it.
#[tactic(auto, unfolding(crate::specs::Prunes::is_emptied))]
fn becomes_empty(z: Shape, leaf: u64, left: u64, child: u64) -> bool
    ensures { result ≡ is_emptied z leaf left child }
{
    leaf == 0 && (left == 0 || links::is_entry(z, child))
}

// The new path below a node, with what is left of the chain at its end, which may be none: from branch to child, with the
// depths left falling, and back up. Answers what stands in the node's place.
pub fn prune(a: &mut [u64], z: Shape, hash: u64, leaf: u64, left: u64, r: u64) -> u64
    requires lent { Lent z a.old }
    requires in_depths { left ≤ z.depths }
    ensures { wrote result a.new ≡ prune_from z hash leaf left (z.depths - left) r a.old }
{
    if left == 0 {
        return leaf;
    }
    if links::is_entry(z, r) {
        return leaf;
    }
    let depth = z.depths - left;
    match grafts::follow(&*a, z, hash, depth, r) {
        Some(child) => {
            if becomes_empty(z, leaf, left - 1, child) {
                return cut_child(a, z, hash, depth, r);
            }
            let below = prune(&mut *a, z, hash, leaf, left - 1, child);
            settle_below(a, z, hash, depth, r, below)
        }
        None => 0,
    }
}
