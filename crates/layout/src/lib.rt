//! Where the words of an arena lie, the layer of the shelf in which words become meaning: header, slots, branch cells
//! and entry cells. Document 01's section "The arena".
//!
//! No other layer computes an offset. It stands on `segments`, whose table says which degrees there are. The crates
//! above read and write a cell's word by the reference that names the cell and by its place in the cell, and a slot's
//! word by slot and place.
//!
//! A caller may rely on this:
//! - `header::read` decides, on any words, whether words 0 to 7 are right and the slice is long enough;
//! - `header::shape` gives the shape of an arena, or says what is wrong with a degree and three sizes;
//! - `table` answers what `words` does of the words of cells, faster where a loop asks for many;
//! - `format::lay_out` writes every word of a formatted arena, and none behind it;
//! - different words have different offsets, all inside the slice (proofs/OffsetLaws.antt), and a store changes one
//!   column at one row (proofs/ColumnLaws.antt).

#![tactic(auto)]

ghost use Rattle.std.specs.Prelude.{◌≡◌, ◌≤◌};
ghost use Rattle.layout.specs.Layout.{reference, number_of_kind, kind_of, most_entries};

pub mod format;
pub mod header;
pub mod table;
pub mod words;

// What the header says and no call but format changes: the degree with its row in the table, how many words a slot has,
// and how many slots, branch cells and entry cells there are.
// No ghost field says what is allowed: the definitions of specs/ make shapes of any degree and sizes (`shape_of`), and each would
// owe its proof. The arena stands beside its shape in every call, since document 01 lends it as a slice.
#[derive(Clone, Copy, Debug, PartialEq, Eq)]
pub struct Shape {
    pub degree: u64,
    pub bits: u64,
    pub depths: u64,
    pub stride: u64,
    pub slots: u64,
    pub branches: u64,
    pub entries: u64,
}

// The two kinds of cells.
#[derive(Clone, Copy, Debug, PartialEq, Eq)]
pub enum Kind {
    Branch,
    Entry,
}

impl Kind {
    // The kind of the cell that a reference names, told by its last bit.
    pub fn of(r: u64) -> Kind
        ensures { number_of_kind result ≡ kind_of r }
    {
        if r % 2 == 0 {
            Kind::Branch
        } else {
            Kind::Entry
        }
    }

    // The last bit of each reference that names a cell of the kind.
    pub fn number(self) -> u64
        ensures { result ≡ number_of_kind self }
    {
        match self {
            Kind::Branch => 0,
            Kind::Entry => 1,
        }
    }

    // The reference that names cell `i` of the kind.
    pub fn reference(self, i: u64) -> u64
        requires { i ≤ most_entries }
        ensures { result ≡ reference (number_of_kind self) i }
    {
        2 * i + 2 + self.number()
    }
}

// Why a degree and three sizes make no arena.
#[derive(Clone, Copy, Debug, PartialEq, Eq)]
pub enum Misfit {
    BadDegree,
    BadSizes,
}
