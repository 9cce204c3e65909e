//! What a reference names, and the references that a cell holds, on any words.
ghost use Rattle.std.specs.Prelude.{◌≡◌};
ghost use Rattle.layout.specs.Layout.{number_of_kind, Lent};
ghost use Rattle.layout.specs.Columns.{columns, refs};
ghost use Rattle.lookup.specs.Lookup.{names_kind};

use layout::{Kind, Shape, words};

// Whether a reference names a cell of this kind.
#[tactic(auto, unfolding(crate::specs::Lookup::names_kind))]
pub fn is_kind(z: Shape, kind: Kind, r: u64) -> bool
    ensures { result ≡ names_kind z (number_of_kind kind) r }
{
    Kind::of(r) == kind && words::is_cell(z, r)
}

pub fn is_branch(z: Shape, r: u64) -> bool
    ensures { result ≡ names_kind z 0 r }
{
    is_kind(z, Kind::Branch, r)
}

pub fn is_entry(z: Shape, r: u64) -> bool
    ensures { result ≡ names_kind z 1 r }
{
    is_kind(z, Kind::Entry, r)
}

// How many references the cell holds: a branch as many as the degree, an entry its next.
#[tactic(auto, unfolding(layout::specs::Columns::refs, layout::specs::Columns::kids_of))]
fn kids(z: Shape, r: u64) -> u64
    ensures { result ≡ refs z r }
{
    if !words::is_cell(z, r) {
        return 0;
    }
    match Kind::of(r) {
        Kind::Branch => z.degree,
        Kind::Entry => 1,
    }
}

// Reference `i` of the cell that `r` names: a branch's child, or an entry's next. 0 where there is none.
#[tactic(auto, using(layout::proofs::ColumnLaws::has_kid, layout::proofs::ColumnLaws::refs_few, layout::proofs::ColumnLaws::kid_in, crate::proofs::FindLaws::kid_out))]
pub fn kid(a: &[u64], z: Shape, r: u64, i: u64) -> u64
    requires { Lent z a.now }
    ensures { result ≡ (columns z a.now).kid r i }
{
    if i < kids(z, r) {
        words::word(a, z, r, words::first_kid(r) + i)
    } else {
        0
    }
}
