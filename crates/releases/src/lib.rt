//! What a drop lets go, a layer of the shelf on `cells`: a word fewer names a cell, and where it was the last, what the cell
//! names is let go in turn and the cell is free.
//!
//! A caller may rely on this: on any words a release writes what its mirror in specs/Releases.antt says and stays inside the
//! arena, and enters no cell twice: a branch is entered only where its depth is its place, and stays counted until all of its
//! words are taken out and it is given back; an entry is given back before the next one is looked at.

#![tactic(auto)]

ghost use Rattle.std.specs.Prelude.{◌≡◌, true, ◌-◌, ◌≤◌, ◌<◌};
ghost use Rattle.layout.specs.Layout.{names, Lent};
ghost use Rattle.layout.specs.Columns.{word, columns};
ghost use Rattle.layout.specs.Table.{table_of};
ghost use Rattle.lookup.specs.Lookup.{names_kind};
ghost use Rattle.cells.specs.Mirrors.{unshare_words};
ghost use Rattle.releases.specs.Releases.{is_last, less_words, chain_from, RowGoesOn, at_place, release_from, is_shared};

use cells::{fill, free, shares};
use layout::{Kind, Shape, table, words};
use lookup::links;

// One word fewer names a cell. Answers whether that was the last; then nothing is written, and the cell is to be given back.
// A cell that is counted by no word is free, and not touched.
fn is_last(a: &mut [u64], z: Shape, r: u64) -> bool
    requires lent { Lent z a.old }
    requires is_cell { names z r ≡ true }
    ensures answers { result ≡ is_last z a.old r }
    ensures leaves { a.new ≡ less_words z a.old r }
{
    let count = words::word(&*a, z, r, words::COUNT);
    if count > 1 {
        shares::unshare(&mut *a, z, r);
        return false;
    }
    count == 1
}

// A chain is let go, entry by entry, as far as no other word names it.
fn release_chain(a: &mut [u64], z: Shape, front: u64)
    requires { Lent z a.old }
    ensures { a.new ≡ chain_from z z.entries front a.old }
{
    let mut r = front;
    for _ in 0..z.entries {
        if !links::is_entry(z, r) {
            return;
        }
        if !is_last(&mut *a, z, r) {
            return;
        }
        let next = fill::take_out(&mut *a, z, r, 0);
        free::give_back(&mut *a, z, r);
        r = next;
    }
}

// Whether a reference names a branch whose depth is its place.
#[tactic(auto, using(crate::proofs::StepLaws::place_by, crate::proofs::CaseLaws::place_none, layout::proofs::ColumnLaws::has_low, lookup::proofs::FindLaws::kind_says))]
fn is_at_place(a: &[u64], z: Shape, depth: u64, r: u64) -> bool
    requires { Lent z a.now }
    ensures { result ≡ at_place z (columns z a.now) depth r }
{
    links::is_branch(z, r) && words::word(a, z, r, words::MARK) == depth
}

// Whether a release comes to a cell that other words name too: then one word fewer is all that it does.
fn is_shared(a: &[u64], z: Shape, t: &[u64], left: u64, r: u64) -> bool
    requires lent { Lent z a.now × (t.now ≡ table_of z) }
    requires in_depths { left ≤ z.depths }
    ensures { result ≡ is_shared z (columns z a.now) left (z.depths - left) r }
{
    if !table::is_cell(z, t, r) {
        return false;
    }
    let count = table::word(a, z, t, r, words::COUNT);
    let mark = table::word(a, z, t, r, words::MARK);
    let here = left > 0 && mark == z.depths - left;
    if count <= 1 {
        return false;
    }
    match Kind::of(r) {
        Kind::Branch => here,
        Kind::Entry => true,
    }
}

// One word fewer names a cell that some word names.
#[tactic(auto, using(layout::proofs::ColumnLaws::has_low))]
fn lessen(a: &mut [u64], z: Shape, t: &[u64], r: u64)
    requires lent { Lent z a.old × (t.now ≡ table_of z) }
    requires is_in_use { (names z r ≡ true) × (0 < word z a.old r 0) }
    ensures { a.new ≡ unshare_words z a.old r }
{
    let count = table::word(&*a, z, t, r, words::COUNT);
    table::set_word(&mut *a, z, t, r, words::COUNT, count - 1);
}

// The children of a branch from `from` on are let go as far as other words name them too, as they do most: without a call of
// `release`, which costs more than a count. Answers the first that is left, or the degree. What the row came to so far goes on.
// Never put into `release`, whose frame stands on the stack once for each depth.
#[inline(never)]
#[tactic(auto, using(layout::proofs::SizeLaws::small))]
fn pass(a: &mut [u64], z: Shape, left: u64, r: u64, from: u64) -> u64
    requires lent { Lent z a.old }
    requires rest_of_branch { (names_kind z 0 r ≡ true) × (left ≤ z.depths) × (from ≤ z.degree) }
    ensures in_row { (from ≤ result) × (result ≤ z.degree) }
    ensures row_goes_on { RowGoesOn (release_from z left (z.depths - left)) z r from result a.old a.new }
{
    let t = table::of(z);
    for k in from..z.degree {
        let child = words::word(&*a, z, r, words::CHILDREN + k);
        if child != 0 {
            if !is_shared(&*a, z, &t, left, child) {
                return k;
            }
            words::set_word(&mut *a, z, r, words::CHILDREN + k, 0);
            lessen(&mut *a, z, &t, child);
        }
    }
    z.degree
}

// A reference is let go: from branch to child, with the depths left falling. Each word of a branch is taken out before what it
// named is let go.
pub fn release(a: &mut [u64], z: Shape, left: u64, r: u64)
    requires lent { Lent z a.old }
    requires in_depths { left ≤ z.depths }
    ensures { a.new ≡ release_from z left (z.depths - left) r a.old }
{
    if links::is_entry(z, r) {
        release_chain(a, z, r);
        return;
    }
    if left == 0 {
        return;
    }
    if !is_at_place(&*a, z, z.depths - left, r) {
        return;
    }
    if !is_last(&mut *a, z, r) {
        return;
    }
    // A while: `pass` decides which child is next.
    let mut k = pass(&mut *a, z, left - 1, r, 0);
    while k < z.degree {
        let child = fill::take_out(&mut *a, z, r, k);
        release(&mut *a, z, left - 1, child);
        k = pass(&mut *a, z, left - 1, r, k + 1);
    }
    free::give_back(&mut *a, z, r);
}
