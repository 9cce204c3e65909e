//! How many words name a cell.
ghost use Rattle.std.specs.Prelude.{◌≡◌, true, ◌-◌};
ghost use Rattle.layout.specs.Layout.{names, Lent};
ghost use Rattle.layout.specs.Table.{table_of};
ghost use Rattle.cells.specs.Mirrors.{one_more, share_words, unshare_words};

use layout::{Shape, table, words};

const MOST: u64 = 18446744073709551615;

// One fewer, and none of none.
pub fn fewer(n: u64) -> u64
    ensures { result ≡ n - 1 }
{
    n.saturating_sub(1)
}

// One more, where there is such a number.
#[tactic(auto, unfolding(crate::specs::Mirrors::one_more))]
pub fn more(n: u64) -> u64
    ensures { result ≡ one_more n }
{
    n.saturating_add(1)
}

// How much more one number is than another; none where it is not.
pub fn less(n: u64, m: u64) -> u64
    ensures { result ≡ n - m }
{
    n.saturating_sub(m)
}

// One more word will name the cell, for a loop over many references: the table is that of the two kinds. A count that cannot
// rise stays: no sound arena has one.
#[tactic(auto, using(layout::proofs::ColumnLaws::has_low), unfolding(crate::specs::Mirrors::share_words))]
pub fn share_by(a: &mut [u64], z: Shape, t: &[u64], r: u64)
    requires { Lent z a.old × (t.now ≡ table_of z) }
    ensures { a.new ≡ share_words z a.old r }
{
    if table::is_cell(z, t, r) {
        let n = table::word(&*a, z, t, r, words::COUNT);
        if n < MOST {
            table::set_word(&mut *a, z, t, r, words::COUNT, n + 1);
        }
    }
}

// One more word will name the cell.
pub fn share(a: &mut [u64], z: Shape, r: u64)
    requires { Lent z a.old }
    ensures { a.new ≡ share_words z a.old r }
{
    let t = table::of(z);
    share_by(a, z, &t, r);
}

// One word fewer names the cell.
#[tactic(auto, using(layout::proofs::ColumnLaws::has_low))]
pub fn unshare(a: &mut [u64], z: Shape, r: u64)
    requires lent { Lent z a.old }
    requires is_cell { names z r ≡ true }
    ensures { a.new ≡ unshare_words z a.old r }
{
    let n = words::word(&*a, z, r, words::COUNT);
    words::set_word(&mut *a, z, r, words::COUNT, fewer(n));
}
