//! Branch cells: the depth of one in use, and the words of the free ones.
ghost use Rattle.std.specs.Prelude.{◌≡◌, true, ◌-◌, ◌≤◌};
ghost use Rattle.layout.specs.Layout.{Lent};
ghost use Rattle.layout.specs.Columns.{columns};
ghost use Rattle.lookup.specs.Lookup.{names_kind};
ghost use Rattle.audits.specs.Audits.{none_from, branch_right, branches_right};

use layout::{Shape, words};
use lookup::links;

// Whether a branch has no child from a place on.
pub fn has_none_from(a: &[u64], z: Shape, r: u64, from: u64) -> bool
    requires lent { Lent z a.now }
    requires in_row { from ≤ z.degree }
    ensures { result ≡ none_from ((columns z a.now).kid r) from (z.degree - from) }
{
    for k in from..z.degree {
        if links::kid(a, z, r, k) != 0 {
            return false;
        }
    }
    true
}

fn is_right(a: &[u64], z: Shape, r: u64) -> bool
    requires lent { Lent z a.now }
    requires is_branch { names_kind z 0 r ≡ true }
    ensures { result ≡ branch_right z (columns z a.now) r }
{
    if words::word(a, z, r, words::COUNT) != 0 {
        return words::word(a, z, r, words::MARK) < z.depths;
    }
    words::word(a, z, r, words::BITMAP) == 0 && has_none_from(a, z, r, 0)
}

// Every branch cell.
pub fn are_right(a: &[u64], z: Shape) -> bool
    requires { Lent z a.now }
    ensures { result ≡ branches_right z (columns z a.now) }
{
    for i in 0..z.branches {
        if !is_right(a, z, 2 * i + 2) {
            return false;
        }
    }
    true
}
