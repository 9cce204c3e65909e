//! The words of a cell that was taken, and a reference taken out of it again.
ghost use Rattle.std.specs.Prelude.{◌≡◌, true, ◌≤◌, ◌<◌, length};
ghost use Rattle.layout.specs.Layout.{kind_of, names, Lent};
ghost use Rattle.layout.specs.Columns.{columns, refs};
ghost use Rattle.cells.specs.Mirrors.{listed, fill_entry_words, row_words, fill_branch_words, put_in_words, take_out_words};

use layout::{Shape, words};
use trie::Entry;

// The words of an entry cell but its count: `length` is that of the chain from it on, `next` what stands behind it.
#[tactic(auto, using(layout::proofs::ColumnLaws::has_entry), unfolding(crate::specs::Mirrors::fill_entry_words))]
pub fn fill_entry(a: &mut [u64], z: Shape, r: u64, length: u64, next: u64, entry: Entry)
    requires lent { Lent z a.old }
    requires is_entry { (names z r ≡ true) × (kind_of r ≡ 1) }
    ensures { a.new ≡ fill_entry_words z a.old r length next entry }
{
    words::set_word(&mut *a, z, r, words::MARK, length);
    words::set_word(&mut *a, z, r, words::NEXT, next);
    words::set_word(&mut *a, z, r, words::HASH, entry.hash);
    words::set_word(&mut *a, z, r, words::KEY, entry.key);
    words::set_word(&mut *a, z, r, words::VALUE, entry.value);
}

// The children of a branch, as many as the degree.
#[tactic(auto, using(crate::proofs::RowLaws::row_none, crate::proofs::RowLaws::row_next, layout::proofs::ColumnLaws::has_branch))]
fn fill_row(a: &mut [u64], z: Shape, r: u64, row: &[u64])
    requires lent { Lent z a.old }
    requires row_fills_branch { (names z r ≡ true) × (kind_of r ≡ 0) × (z.degree ≤ length row.now) }
    ensures { a.new ≡ row_words z r (listed row.now) z.degree a.old }
{
    for k in 0..z.degree {
        words::set_word(&mut *a, z, r, words::CHILDREN + k, row[k as usize]);
    }
}

#[tactic(auto, using(layout::proofs::ColumnLaws::has_low), unfolding(crate::specs::Mirrors::fill_branch_words))]
pub fn fill_branch(a: &mut [u64], z: Shape, r: u64, depth: u64, bitmap: u64, row: &[u64])
    requires lent { Lent z a.old }
    requires row_fills_branch { (names z r ≡ true) × (kind_of r ≡ 0) × (z.degree ≤ length row.now) }
    ensures { a.new ≡ fill_branch_words z a.old r depth bitmap (listed row.now) }
{
    words::set_word(&mut *a, z, r, words::MARK, depth);
    words::set_word(&mut *a, z, r, words::BITMAP, bitmap);
    fill_row(&mut *a, z, r, row);
}

// A reference that a cell holds from now on at its place `k`.
#[tactic(auto, using(layout::proofs::ColumnLaws::has_kid, layout::proofs::ColumnLaws::refs_few))]
pub fn put_in(a: &mut [u64], z: Shape, r: u64, k: u64, v: u64)
    requires lent { Lent z a.old }
    requires has_ref { k < refs z r }
    ensures { a.new ≡ put_in_words z a.old r k v }
{
    words::set_word(&mut *a, z, r, words::first_kid(r) + k, v);
}

// Reference `k` of a cell, which becomes 0: an entry's next, or one of a branch's children.
#[tactic(auto, using(layout::proofs::ColumnLaws::has_kid, layout::proofs::ColumnLaws::refs_few, layout::proofs::ColumnLaws::kid_in))]
pub fn take_out(a: &mut [u64], z: Shape, r: u64, k: u64) -> u64
    requires lent { Lent z a.old }
    requires has_ref { k < refs z r }
    ensures answers { result ≡ (columns z a.old).kid r k }
    ensures leaves { a.new ≡ take_out_words z a.old r k }
{
    let v = words::word(&*a, z, r, words::first_kid(r) + k);
    put_in(a, z, r, k, 0);
    v
}
