//! A node seen as the children of a branch: a branch's own, the one entry that stands in the way, or none.
ghost use Rattle.std.specs.Prelude.{◌≡◌, ◌+◌, ◌*◌, ◌^◌, ◌<◌};
ghost use Rattle.layout.specs.Layout.{Lent};
ghost use Rattle.layout.specs.Columns.{columns};
ghost use Rattle.grafts.specs.Grafts.{kid_bits, kid_row, gap_at};

use layout::{Shape, words};
use lookup::links;

// The bitmap, at a depth.
pub fn bits(a: &[u64], z: Shape, depth: u64, r: u64) -> u64
    requires lent { Lent z a.now }
    requires in_depths { depth < z.depths }
    ensures { result ≡ kid_bits z (columns z a.now) depth r }
{
    if links::is_branch(z, r) {
        return words::word(a, z, r, words::BITMAP);
    }
    if links::is_entry(z, r) {
        return 1u64 << segments::segment_at(words::word(a, z, r, words::HASH), depth, z.bits);
    }
    0
}

// The child at a place.
pub fn at(a: &[u64], z: Shape, r: u64, place: u64) -> u64
    requires { Lent z a.now }
    ensures { result ≡ kid_row z (columns z a.now) r place }
{
    if links::is_branch(z, r) {
        return links::kid(a, z, r, place);
    }
    if place != 0 {
        return 0;
    }
    if links::is_entry(z, r) { r } else { 0 }
}

// How many places the children behind a segment go up when a child is put there: none where one stands there already.
pub fn gap(bits: u64, segment: u64) -> u64
    requires { segment < 64 }
    ensures { result ≡ gap_at bits segment }
{
    match sparse_array::map_index(bits, segment) {
        Ok(Some(_)) => 0,
        Ok(None) => 1,
        Err(_) => 1,
    }
}

// The bitmap with a segment's bit set, which it lacks where there is a gap.
pub fn with(bits: u64, segment: u64, gap: u64) -> u64
    requires in_bitmap { segment < 64 }
    requires gap_is { gap ≡ gap_at bits segment }
    ensures { result ≡ bits + gap_at bits segment * 2 ^ segment }
{
    if gap == 0 {
        bits
    } else {
        bits | (1u64 << segment)
    }
}
