//! One word of a cell, of a slot or of the header. Nothing else computes an offset.
//!
//! A cell is given by the reference that names it, which tells its kind and its number, and a word of it by its place.
//! Callers have seen that the reference names a cell (`is_cell`) before they ask for its words.
ghost use Rattle.std.specs.Prelude.{◌≡◌, true, cond, ◌+◌, ◌≤◌, ◌<◌, eqb, set};
ghost use Rattle.layout.specs.Layout.{number_of_kind, kind_of, width_of, cells_of, cells_at, slot_at, word_at, names, has, Allowed, Lent};
ghost use Rattle.layout.specs.Columns.{word_of_slot, word, by_kind, kid_place, word_set, slot_word_set};

use crate::{Kind, Shape, header};

// The places of a cell's words. A branch keeps its bitmap where an entry keeps its next.
pub const COUNT: u64 = 0;

pub const MARK: u64 = 1;

pub const BITMAP: u64 = 2;

pub const CHILDREN: u64 = 3;

pub const NEXT: u64 = 2;

pub const HASH: u64 = 3;

pub const KEY: u64 = 4;

pub const VALUE: u64 = 5;

// The words of the header that there is one of for each kind: the first free cell, and how many cells are in use.
pub const FIRST_FREE: u64 = 8;

pub const IN_USE: u64 = 10;

// The places of a slot's words.
pub const HELD: u64 = 0;

pub const ROOT: u64 = 1;

pub const SIZE: u64 = 2;

// How many cells there are of a kind.
#[tactic(auto, unfolding(crate::specs::Layout::cells_of))]
pub fn cells_of(z: Shape, kind: Kind) -> u64
    ensures { result ≡ cells_of z (number_of_kind kind) }
{
    match kind {
        Kind::Branch => z.branches,
        Kind::Entry => z.entries,
    }
}

#[tactic(auto, unfolding(crate::specs::Layout::width_of))]
pub fn width_of(z: Shape, kind: Kind) -> u64
    requires { Allowed z }
    ensures { result ≡ width_of z (number_of_kind kind) }
{
    match kind {
        Kind::Branch => 3 + z.degree,
        Kind::Entry => 6,
    }
}

#[tactic(auto, unfolding(crate::specs::Layout::cells_at))]
pub fn at_cells(z: Shape, kind: Kind) -> u64
    requires { Allowed z }
    ensures { result ≡ cells_at z (number_of_kind kind) }
{
    match kind {
        Kind::Branch => header::at_branches(z),
        Kind::Entry => header::at_entries(z),
    }
}

// The place from which on a cell holds references: a branch its children, an entry its next.
pub fn first_kid(r: u64) -> u64
    ensures { result ≡ kid_place (kind_of r) }
{
    match Kind::of(r) {
        Kind::Branch => CHILDREN,
        Kind::Entry => NEXT,
    }
}

// Whether a reference names a cell. References 0 and 1 name none.
#[tactic(auto, unfolding(crate::specs::Layout::names))]
pub fn is_cell(z: Shape, r: u64) -> bool
    ensures { result ≡ names z r }
{
    if r < 2 {
        return false;
    }
    r / 2 - 1 < cells_of(z, Kind::of(r))
}

fn word_at(z: Shape, r: u64, place: u64) -> usize
    requires allowed { Allowed z }
    requires has_word { has z r place ≡ true }
    ensures { result ≡ word_at z r place }
{
    let kind = Kind::of(r);
    let base = at_cells(z, kind);
    let width = width_of(z, kind);
    (base + (r / 2 - 1) * width + place) as usize
}

// Word `place` of the cell that `r` names.
pub fn word(a: &[u64], z: Shape, r: u64, place: u64) -> u64
    requires lent { Lent z a.now }
    requires has_word { has z r place ≡ true }
    ensures { result ≡ word z a.now r place }
{
    let i = word_at(z, r, place);
    a[i]
}

pub fn set_word(a: &mut [u64], z: Shape, r: u64, place: u64, v: u64)
    requires lent { Lent z a.old }
    requires has_word { has z r place ≡ true }
    ensures { a.new ≡ word_set z a.old r place v }
{
    let i = word_at(z, r, place);
    a[i] = v;
}

fn slot_at(z: Shape, s: u64, place: u64) -> usize
    requires allowed { Allowed z }
    requires in_slots { (s < z.slots) × (place < z.stride) }
    ensures { result ≡ slot_at z s place }
{
    (header::HEADER_WORDS + s * z.stride + place) as usize
}

// Word `place` of slot `s`.
pub fn slot_word(a: &[u64], z: Shape, s: u64, place: u64) -> u64
    requires lent { Lent z a.now }
    requires in_slots { (s < z.slots) × (place < z.stride) }
    ensures { result ≡ word_of_slot z a.now s place }
{
    let i = slot_at(z, s, place);
    a[i]
}

pub fn set_slot_word(a: &mut [u64], z: Shape, s: u64, place: u64, v: u64)
    requires lent { Lent z a.old }
    requires in_slots { (s < z.slots) × (place < z.stride) }
    ensures { a.new ≡ slot_word_set z a.old s place v }
{
    let i = slot_at(z, s, place);
    a[i] = v;
}

// A word of the header that there is one of for each kind.
#[tactic(auto, using(crate::proofs::StoreLaws::kind_in, crate::proofs::KindLaws::kind_low))]
pub fn kind_word(a: &[u64], z: Shape, base: u64, kind: Kind) -> u64
    requires lent { Lent z a.now }
    requires in_header { base ≤ 10 }
    ensures { result ≡ by_kind a.now base (number_of_kind kind) }
{
    a[(base + kind.number()) as usize]
}

#[tactic(auto, using(crate::proofs::KindLaws::kind_low))]
pub fn set_kind_word(a: &mut [u64], z: Shape, base: u64, kind: Kind, v: u64)
    requires lent { Lent z a.old }
    requires in_header { base ≤ 10 }
    ensures { a.new ≡ set a.old (base + number_of_kind kind) v }
{
    a[(base + kind.number()) as usize] = v;
}
