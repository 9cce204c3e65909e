//! The free chains: each goes through every cell of its kind that is free, and ends.
ghost use Rattle.std.specs.Prelude.{◌≡◌, ◌<◌};
ghost use Rattle.layout.specs.Layout.{number_of_kind, Lent};
ghost use Rattle.layout.specs.Columns.{columns};
ghost use Rattle.audits.specs.Audits.{idle, walk, chain_right};

use layout::{Kind, Shape, words};
use lookup::links;

// How many cells of a kind have a count of 0.
#[tactic(auto, using(layout::proofs::OffsetLaws::cells_few), unfolding(counts::specs::Counts::sum_to))]
fn count_free(a: &[u64], z: Shape, kind: Kind) -> u64
    requires { Lent z a.now }
    ensures { result ≡ idle z (columns z a.now) (number_of_kind kind) }
{
    let mut n = 0;
    for i in 0..words::cells_of(z, kind) {
        if words::word(a, z, kind.reference(i), words::COUNT) == 0 {
            n += 1;
        }
    }
    n
}

// Whether a chain goes through `n` free cells of a kind and ends there. It cannot go through one twice, since it would
// not end.
fn ends_after(a: &[u64], z: Shape, kind: Kind, n: u64, first: u64) -> bool
    requires { Lent z a.now }
    ensures { result ≡ walk z (columns z a.now) (number_of_kind kind) n first }
{
    let mut r = first;
    for _ in 0..n {
        if !links::is_kind(z, kind, r) {
            return false;
        }
        if words::word(a, z, r, words::COUNT) != 0 {
            return false;
        }
        r = words::word(a, z, r, words::MARK);
    }
    r == 0
}

// The word that counts the cells of a kind in use, and the chain of the others.
pub fn is_right(a: &[u64], z: Shape, kind: Kind) -> bool
    requires { Lent z a.now }
    ensures { result ≡ chain_right z (columns z a.now) (number_of_kind kind) }
{
    let n = count_free(a, z, kind);
    if words::kind_word(a, z, words::IN_USE, kind) != words::cells_of(z, kind) - n {
        return false;
    }
    ends_after(
        a,
        z,
        kind,
        n,
        words::kind_word(a, z, words::FIRST_FREE, kind),
    )
}
