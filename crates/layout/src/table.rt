//! The words of many cells, for a loop over references of both kinds: how many cells there are of a kind, where they begin and
//! how wide they are stand in a small table, which a reference's last bit picks from. Decided anew for each reference, the kind
//! takes more instructions than the word.
ghost use Rattle.std.specs.Prelude.{◌≡◌, true, ◌+◌, ◌≤◌, length, get_or};
ghost use Rattle.layout.specs.Layout.{kind_of, word_at, names, has, Allowed, Lent};
ghost use Rattle.layout.specs.Columns.{word, word_set};
ghost use Rattle.layout.specs.Table.{table_of};

use crate::{Kind, Shape, words};

// Where the numbers of cells, the offsets and the widths stand in the table, two words each.
const CELLS: u64 = 0;

const AT: u64 = 2;

const WIDTHS: u64 = 4;

// The table of a shape.
pub fn of(z: Shape) -> [u64; 6]
    requires { Allowed z }
    ensures { result ≡ table_of z }
{
    [
        words::cells_of(z, Kind::Branch),
        words::cells_of(z, Kind::Entry),
        words::at_cells(z, Kind::Branch),
        words::at_cells(z, Kind::Entry),
        words::width_of(z, Kind::Branch),
        words::width_of(z, Kind::Entry),
    ]
}

// The word of a part of the table that goes with a reference's kind.
fn picked(t: &[u64], part: u64, r: u64) -> u64
    requires { (length t.now ≡ 6) × (part ≤ 4) }
    ensures { result ≡ get_or t.now (part + kind_of r) 0 }
{
    t[(part + Kind::of(r).number()) as usize]
}

// Whether a reference names a cell.
pub fn is_cell(z: Shape, t: &[u64], r: u64) -> bool
    requires { t.now ≡ table_of z }
    ensures { result ≡ names z r }
{
    if r < 2 {
        return false;
    }
    r / 2 - 1 < picked(t, CELLS, r)
}

fn word_at(z: Shape, t: &[u64], r: u64, place: u64) -> usize
    requires allowed { Allowed z × (t.now ≡ table_of z) }
    requires has_word { has z r place ≡ true }
    ensures { result ≡ word_at z r place }
{
    (picked(t, AT, r) + (r / 2 - 1) * picked(t, WIDTHS, r) + place) as usize
}

// Word `place` of the cell that `r` names.
pub fn word(a: &[u64], z: Shape, t: &[u64], r: u64, place: u64) -> u64
    requires lent { Lent z a.now × (t.now ≡ table_of z) }
    requires has_word { has z r place ≡ true }
    ensures { result ≡ word z a.now r place }
{
    let i = word_at(z, t, r, place);
    a[i]
}

pub fn set_word(a: &mut [u64], z: Shape, t: &[u64], r: u64, place: u64, v: u64)
    requires lent { Lent z a.old × (t.now ≡ table_of z) }
    requires has_word { has z r place ≡ true }
    ensures { a.new ≡ word_set z a.old r place v }
{
    let i = word_at(z, t, r, place);
    a[i] = v;
}
