//! Whether every cell of an arena is free. No call shows the free chains; so the words are read here. The arena has degree 16
//! and 6 slots: branch cells of 19 words lie from word 30 on, and behind them the entry cells, of 6 words.
ghost use Rattle.std.specs.Prelude.{◌<◌, ◌≤◌};

use shown::lent;

// No arena here has more branch cells or more entry cells.
const MOST: u64 = 49;

// The two kinds of cells, told by a reference's last bit: worked out here and not by the library, whose words are looked at.
#[derive(Clone, Copy, Debug, PartialEq, Eq)]
enum Kind {
    Branch,
    Entry,
}

impl Kind {
    fn of(r: u64) -> Kind {
        if r % 2 == 0 {
            Kind::Branch
        } else {
            Kind::Entry
        }
    }
}

// Whether the words from a place on and before another are 0.
fn is_zero(a: &[u64], from: usize, end: usize) -> bool {
    (from..end).all(|i| lent::word(a, i) == 0)
}

// A free cell has the next one in its second word, and in all others 0.
fn is_free(a: &[u64], at: usize, width: usize) -> bool
    requires { (at ≤ 4000) × (width ≤ 19) }
{
    lent::word(a, at) == 0 && is_zero(a, at + 2, at + width)
}

// How many words a cell has.
fn width(kind: Kind) -> usize
    ensures { result ≤ 19 }
{
    match kind {
        Kind::Branch => 19,
        Kind::Entry => 6,
    }
}

// The first word of a cell.
fn place(branches: u64, kind: Kind, cell: u64) -> usize
    requires { (branches ≤ 49) × (cell < 49) }
    ensures { result ≤ 4000 }
{
    match kind {
        Kind::Branch => 30 + 19 * cell as usize,
        Kind::Entry => 30 + 19 * branches as usize + 6 * cell as usize,
    }
}

// The reference behind a free cell on its chain; none where there is no such cell or it is not free.
fn behind(a: &[u64], branches: u64, kind: Kind, r: u64) -> Option<u64>
    requires { branches ≤ 49 }
{
    if r < 2 || Kind::of(r) != kind {
        return None;
    }
    let cell = r / 2 - 1;
    if MOST <= cell {
        return None;
    }
    let at = place(branches, kind, cell);
    if is_free(a, at, width(kind)) {
        Some(lent::word(a, at + 1))
    } else {
        None
    }
}

// Whether the free chain that begins with a reference ends behind so many cells. None stands on it twice, or it had no end.
fn is_chain(a: &[u64], branches: u64, kind: Kind, first: u64, cells: u64) -> bool
    requires { branches ≤ 49 }
{
    let mut r = first;
    for _ in 0..cells {
        let Some(next) = behind(a, branches, kind, r) else {
            return false;
        };
        r = next;
    }
    r == 0
}

// Words 10 and 11 count none in use, no slot is held, and all cells stand on their chains.
pub fn is_all(a: &[u64], branches: u64, entries: u64) -> bool {
    if MOST < branches {
        return false;
    }
    is_zero(a, 10, 30)
        && is_chain(a, branches, Kind::Branch, lent::word(a, 8), branches)
        && is_chain(a, branches, Kind::Entry, lent::word(a, 9), entries)
}
