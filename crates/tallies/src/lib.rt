//! How often each cell is named, in the work words: slots, child words and next words are gone through once. A layer of the shelf,
//! below check, for arenas whose header was seen to be right.
//!
//! A caller may rely on this, for any words: the arena is only read, and of the work words only those of the cells are
//! written, a branch's first and then an entry's.

#![tactic(auto)]

ghost use Rattle.std.specs.Prelude.{◌≡◌, true, ◌^◌, ◌≤◌, ◌<◌, length};
ghost use Rattle.counts.specs.Counts.{ind, sum_to, times};
ghost use Rattle.layout.specs.Layout.{reference, number_of_kind, cells_of, names, Allowed, Lent};
ghost use Rattle.layout.specs.Columns.{columns};
ghost use Rattle.arena.specs.Local.{occ};
ghost use Rattle.tallies.specs.Tallies.{work_words, work_place, Works, Low, Adds, counts_of, counts_right};

use layout::{Kind, Shape, words};
use lookup::links;

// The work words of the cells are 0.
pub fn clear(work: &mut [u64], z: Shape)
    requires allowed { Allowed z }
    requires work_fits { work_words z ≤ length work.old }
    ensures { Works z (λ r. 0) work.old work.new }
{
    work[..(z.branches + z.entries) as usize].fill(0);
}

// The place of a cell's work word.
#[tactic(auto, using(crate::proofs::WorkLaws::work_branch, crate::proofs::WorkLaws::work_entry))]
fn work_at(z: Shape, r: u64) -> usize
    requires allowed { Allowed z }
    requires is_cell { names z r ≡ true }
    ensures { result ≡ work_place z r }
{
    match Kind::of(r) {
        Kind::Branch => (r / 2 - 1) as usize,
        Kind::Entry => (z.branches + (r / 2 - 1)) as usize,
    }
}

// One word more names what `r` names.
fn tally_one(work: &mut [u64], z: Shape, r: u64)
    requires allowed { Allowed z }
    requires work_fits { work_words z ≤ length work.old }
    requires low { Low z (2 ^ 60) work.old }
    ensures { Adds z (λ q. ind q r) work.old work.new }
{
    if words::is_cell(z, r) {
        let i = work_at(z, r);
        work[i] += 1;
    }
}

// The references that a cell holds.
fn tally_cell(a: &[u64], work: &mut [u64], z: Shape, r: u64, kids: u64)
    requires lent { Lent z a.now }
    requires work_fits { work_words z ≤ length work.old }
    requires low { Low z (2 ^ 50) work.old }
    requires few_kids { kids ≤ 64 }
    ensures { Adds z (times kids ((columns z a.now).kid r)) work.old work.new }
{
    for k in 0..kids {
        tally_one(&mut *work, z, links::kid(a, z, r, k));
    }
}

// All cells of a kind.
#[tactic(auto, using(layout::proofs::OffsetLaws::cells_few))]
fn tally_cells(a: &[u64], work: &mut [u64], z: Shape, kind: Kind, kids: u64)
    requires lent { Lent z a.now }
    requires work_fits { work_words z ≤ length work.old }
    requires low { Low z (2 ^ 40) work.old }
    requires few_kids { kids ≤ 64 }
    ensures { Adds z (λ q. sum_to (cells_of z (number_of_kind kind)) (λ i. times kids ((columns z a.now).kid (reference (number_of_kind kind) i)) q)) work.old work.new }
{
    for i in 0..words::cells_of(z, kind) {
        tally_cell(a, &mut *work, z, kind.reference(i), kids);
    }
}

// The roots of all slots.
fn tally_roots(a: &[u64], work: &mut [u64], z: Shape)
    requires lent { Lent z a.now }
    requires work_fits { work_words z ≤ length work.old }
    requires low { Low z 0 work.old }
    ensures { Adds z (times z.slots (columns z a.now).root) work.old work.new }
{
    for s in 0..z.slots {
        tally_one(&mut *work, z, words::slot_word(a, z, s, words::ROOT));
    }
}

// How many words of the arena name each cell.
pub fn tally(a: &[u64], work: &mut [u64], z: Shape)
    requires lent { Lent z a.now }
    requires work_fits { work_words z ≤ length work.old }
    ensures { Works z (occ z (columns z a.now)) work.old work.new }
{
    clear(&mut *work, z);
    tally_roots(a, &mut *work, z);
    tally_cells(a, &mut *work, z, Kind::Branch, z.degree);
    tally_cells(a, &mut *work, z, Kind::Entry, 1);
}

// Whether the work words of the cells of a kind are their counts.
#[tactic(auto, using(layout::proofs::OffsetLaws::cells_few))]
fn are_counts_of(a: &[u64], work: &[u64], z: Shape, kind: Kind) -> bool
    requires lent { Lent z a.now }
    requires work_fits { work_words z ≤ length work.now }
    ensures { result ≡ counts_of z (columns z a.now) work.now (number_of_kind kind) }
{
    for i in 0..words::cells_of(z, kind) {
        let r = kind.reference(i);
        if work[work_at(z, r)] != words::word(a, z, r, words::COUNT) {
            return false;
        }
    }
    true
}

// Whether the work words are the counts of the cells.
pub fn are_counts(a: &[u64], work: &[u64], z: Shape) -> bool
    requires lent { Lent z a.now }
    requires work_fits { work_words z ≤ length work.now }
    ensures { result ≡ counts_right z (columns z a.now) work.now }
{
    are_counts_of(a, work, z, Kind::Branch) && are_counts_of(a, work, z, Kind::Entry)
}
