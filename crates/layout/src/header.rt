//! The header: the shape of an arena, read off its words or made for a new one.
ghost use Rattle.std.specs.Prelude.{◌≡◌, length, ◌≤◌};
ghost use Rattle.layout.specs.Layout.{header_words, branches_at, entries_at, total, Allowed};
ghost use Rattle.layout.specs.Header.{within, are_sizes_fit, shape_in, shape_of, are_offsets_fit, right_in, header_of};

use crate::{Misfit, Shape};

pub const LAYOUT: u64 = 1;

pub const HEADER_WORDS: u64 = 12;

pub const SLOT_WORDS: u64 = 3;

pub const MOST_BRANCHES: u64 = 1048576;

pub const MOST_ENTRIES: u64 = 4194304;

pub const MOST_SLOTS: u64 = 4096;

// From 1 on, and at most `most`.
#[tactic(auto, unfolding(crate::specs::Header::within))]
fn within(x: u64, most: u64) -> bool
    ensures { result ≡ within x most }
{
    1 <= x && x <= most
}

#[tactic(auto, unfolding(crate::specs::Header::are_sizes_fit))]
fn sizes_fit(branches: u64, entries: u64, slots: u64) -> bool
    ensures { result ≡ are_sizes_fit branches entries slots }
{
    within(branches, MOST_BRANCHES) && within(entries, MOST_ENTRIES) && within(slots, MOST_SLOTS)
}

// The shape of a degree and three sizes. The degree is tested first.
#[tactic(auto, unfolding(crate::specs::Header::shape_of, crate::specs::Header::shape_in))]
pub fn shape(degree: u64, branches: u64, entries: u64, slots: u64) -> Result<Shape, Misfit>
    ensures { result ≡ shape_of degree branches entries slots }
{
    let row = segments::degree_row(degree).ok_or(Misfit::BadDegree)?;
    if !sizes_fit(branches, entries, slots) {
        return Err(Misfit::BadSizes);
    }
    Ok(Shape {
        degree,
        bits: row.bits,
        depths: row.depths,
        stride: SLOT_WORDS,
        slots,
        branches,
        entries,
    })
}

// Word 6: where the branch cells begin, behind the slots.
#[tactic(auto, using(crate::proofs::SizeLaws::small))]
pub fn at_branches(z: Shape) -> u64
    requires { Allowed z }
    ensures { result ≡ branches_at z }
{
    HEADER_WORDS + z.stride * z.slots
}

// Word 7: where the entry cells begin, behind the branch cells.
#[tactic(auto, using(crate::proofs::SizeLaws::small))]
pub fn at_entries(z: Shape) -> u64
    requires { Allowed z }
    ensures { result ≡ entries_at z }
{
    at_branches(z) + z.branches * (3 + z.degree)
}

// How many words the arena has.
#[tactic(auto, using(crate::proofs::SizeLaws::small))]
pub fn total(z: Shape) -> u64
    requires { Allowed z }
    ensures { result ≡ total z }
{
    at_entries(z) + 6 * z.entries
}

// Words 5 to 7 and the length of the slice.
#[tactic(auto, unfolding(crate::specs::Header::are_offsets_fit))]
fn offsets_fit(a: &[u64], z: Shape) -> bool
    requires allowed { Allowed z }
    requires header_fits { header_words ≤ length a.now }
    ensures { result ≡ are_offsets_fit a.now z }
{
    a[5] == HEADER_WORDS
        && a[6] == at_branches(z)
        && a[7] == at_entries(z)
        && total(z) <= a.len() as u64
}

// What words 1 to 4 say, with the words behind them and the length.
#[tactic(auto, using(crate::proofs::HeaderLaws::shape_Allowed), unfolding(crate::specs::Header::right_in))]
fn right(a: &[u64], degree: u64, branches: u64, entries: u64, slots: u64) -> Option<Shape>
    requires { header_words ≤ length a.now }
    ensures { result ≡ right_in a.now (shape_of degree branches entries slots) }
{
    let z = shape(degree, branches, entries, slots).ok()?;
    if offsets_fit(a, z) { Some(z) } else { None }
}

// The shape, where words 0 to 7 are right and the slice is long enough, on any words.
pub fn read(a: &[u64]) -> Option<Shape>
    ensures { result ≡ header_of a.now }
{
    if a.len() < 12 {
        return None;
    }
    if a[0] != LAYOUT {
        return None;
    }
    right(a, a[1], a[2], a[3], a[4])
}
