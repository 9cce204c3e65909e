//! Every word of an arena that has just been formatted, written once and in order.
//!
//! Each function here stores a run of words from an offset on, and its contract gives that run; `lay_out` puts the runs
//! one behind the other.
ghost use Rattle.std.specs.Prelude.{◌≡◌, cond, ◌∷◌, suc, ◌+◌, ◌-◌, ◌*◌, ◌≤◌, ◌<◌, eqb, length};
ghost use Rattle.std.proofs.lemmas.List.Edits.{sets};
ghost use Rattle.layout.specs.Layout.{reference, number_of_kind, most_entries, Lent};
ghost use Rattle.layout.specs.Blank.{zeros, free_cell_words, header, blank};

use crate::{Kind, Shape, header};

// `n` zeros from `at` on.
fn zeros(a: &mut [u64], at: usize, n: usize)
    requires { at + n ≤ length a.old }
    ensures { a.new ≡ sets a.old at (zeros n) }
{
    a[at..at + n].fill(0);
}

// The next free reference in cell `i` of `n` free ones: it names the cell behind, and the last has none.
fn next_free(kind: Kind, i: u64, n: u64) -> u64
    requires { (i < n) × (n ≤ most_entries) }
    ensures { result ≡ cond (eqb (n - (i + 1)) 0) 0 (reference (number_of_kind kind) (suc i)) }
{
    if i + 1 == n { 0 } else { kind.reference(i + 1) }
}

// A free cell: count 0, the next free reference, and `rest` zeros.
fn free_cell(a: &mut [u64], at: usize, next: u64, rest: usize)
    requires { at + (2 + rest) ≤ length a.old }
    ensures { a.new ≡ sets a.old at (0 ∷ next ∷ zeros rest) }
{
    a[at] = 0;
    a[at + 1] = next;
    zeros(a, at + 2, rest);
}

// `n` free cells of a kind from `at` on, with `rest` words behind the first two of each, chained in ascending order.
fn free_cells(a: &mut [u64], at: usize, kind: Kind, rest: usize, n: u64)
    requires { (n ≤ most_entries) × (at + n * (2 + rest) ≤ length a.old) }
    ensures { a.new ≡ sets a.old at (free_cell_words (number_of_kind kind) rest 0 n) }
{
    let mut here = at;
    for i in 0..n {
        free_cell(a, here, next_free(kind, i, n), rest);
        here += 2 + rest;
    }
}

// Words 0 to 11. The first free cells are the first of each kind, references 2 and 3, and none is in use.
fn write_header(a: &mut [u64], z: Shape)
    requires { Lent z a.old }
    ensures { a.new ≡ sets a.old 0 (header z) }
{
    a[0] = header::LAYOUT;
    a[1] = z.degree;
    a[2] = z.branches;
    a[3] = z.entries;
    a[4] = z.slots;
    a[5] = header::HEADER_WORDS;
    a[6] = header::at_branches(z);
    a[7] = header::at_entries(z);
    a[8] = 2;
    a[9] = 3;
    a[10] = 0;
    a[11] = 0;
}

// An arena of shape `z` in which every slot and every cell is free. What lies behind it in the slice stays as it was.
pub fn lay_out(a: &mut [u64], z: Shape)
    requires { Lent z a.old }
    ensures { a.new ≡ blank z a.old }
{
    write_header(a, z);
    zeros(
        a,
        header::HEADER_WORDS as usize,
        (z.stride * z.slots) as usize,
    );
    free_cells(
        a,
        header::at_branches(z) as usize,
        Kind::Branch,
        (1 + z.degree) as usize,
        z.branches,
    );
    free_cells(a, header::at_entries(z) as usize, Kind::Entry, 4, z.entries);
}
