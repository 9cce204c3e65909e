//! The free chains: the first cell of one is taken, and a cell is given back to its front.
ghost use Rattle.std.specs.Prelude.{◌≡◌, true, ◌<◌};
ghost use Rattle.layout.specs.Layout.{number_of_kind, names, Lent};
ghost use Rattle.cells.specs.Mirrors.{takeable, taken_of, cell_taken, take_words, blank_words, give_back_words};

use crate::shares;
use layout::{Kind, Shape, words};

// Whether the first of a free chain is what it should be. On a sound arena only the end of the chain is refused; on any
// other this keeps a cell that is in use from being written over.
#[tactic(auto, using(layout::proofs::ColumnLaws::has_low), unfolding(crate::specs::Mirrors::takeable))]
fn may_take(a: &[u64], z: Shape, kind: Kind, r: u64) -> bool
    requires lent { Lent z a.now }
    ensures { result ≡ takeable z a.now (number_of_kind kind) r }
{
    words::is_cell(z, r)
        && Kind::of(r) == kind
        && words::word(a, z, r, words::COUNT) == 0
        && words::kind_word(a, z, words::IN_USE, kind) < words::cells_of(z, kind)
}

// A cell that may be taken leaves its chain, with a count of 1 and all else 0.
#[tactic(auto, using(crate::proofs::TakeLaws::takeable_says, layout::proofs::ColumnLaws::has_low, layout::proofs::OffsetLaws::cells_few), unfolding(crate::specs::Mirrors::cell_taken))]
fn take_cell(a: &mut [u64], z: Shape, kind: Kind, r: u64)
    requires lent { Lent z a.old }
    requires is_takeable { takeable z a.old (number_of_kind kind) r ≡ true }
    ensures { a.new ≡ cell_taken z a.old (number_of_kind kind) r }
{
    let next = words::word(&*a, z, r, words::MARK);
    let used = words::kind_word(&*a, z, words::IN_USE, kind);
    words::set_word(&mut *a, z, r, words::COUNT, 1);
    words::set_word(&mut *a, z, r, words::MARK, 0);
    words::set_kind_word(&mut *a, z, words::FIRST_FREE, kind, next);
    words::set_kind_word(&mut *a, z, words::IN_USE, kind, used + 1);
}

// A reference is answered as it is stored, and so 0 for none: what is taken goes into a root, a child word or a next.
// The first free cell of a kind is taken. Answers its reference, or 0 where there is none to take.
#[tactic(auto, using(crate::proofs::TakeLaws::taken_some, crate::proofs::TakeLaws::taken_none, crate::proofs::TakeLaws::take_words_lem, crate::proofs::TakeLaws::take_words_none))]
pub fn take(a: &mut [u64], z: Shape, kind: Kind) -> u64
    requires { Lent z a.old }
    ensures answers { result ≡ taken_of z a.old (number_of_kind kind) }
    ensures leaves { a.new ≡ take_words z a.old (number_of_kind kind) }
{
    let r = words::kind_word(&*a, z, words::FIRST_FREE, kind);
    if may_take(&*a, z, kind, r) {
        take_cell(&mut *a, z, kind, r);
        r
    } else {
        0
    }
}

// The words of a cell that are no references become 0.
#[tactic(auto, using(layout::proofs::ColumnLaws::has_low, layout::proofs::ColumnLaws::has_entry), unfolding(crate::specs::Mirrors::blank_words))]
fn blank(a: &mut [u64], z: Shape, r: u64)
    requires lent { Lent z a.old }
    requires is_cell { names z r ≡ true }
    ensures { a.new ≡ blank_words z a.old r }
{
    match Kind::of(r) {
        Kind::Branch => words::set_word(&mut *a, z, r, words::BITMAP, 0),
        Kind::Entry => {
            words::set_word(&mut *a, z, r, words::HASH, 0);
            words::set_word(&mut *a, z, r, words::KEY, 0);
            words::set_word(&mut *a, z, r, words::VALUE, 0);
        }
    }
}

// A cell that holds no reference any more becomes the first of its free chain.
#[tactic(auto, using(layout::proofs::ColumnLaws::has_low), unfolding(crate::specs::Mirrors::give_back_words))]
pub fn give_back(a: &mut [u64], z: Shape, r: u64)
    requires lent { Lent z a.old }
    requires is_cell { names z r ≡ true }
    ensures { a.new ≡ give_back_words z a.old r }
{
    let kind = Kind::of(r);
    let first = words::kind_word(&*a, z, words::FIRST_FREE, kind);
    let used = words::kind_word(&*a, z, words::IN_USE, kind);
    let fewer = shares::fewer(used);
    blank(&mut *a, z, r);
    words::set_word(&mut *a, z, r, words::COUNT, 0);
    words::set_word(&mut *a, z, r, words::MARK, first);
    words::set_kind_word(&mut *a, z, words::FIRST_FREE, kind, r);
    words::set_kind_word(&mut *a, z, words::IN_USE, kind, fewer);
}
