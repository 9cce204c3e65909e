//! Lookup: from a root along the path of a hash, then through the chain at its end. A layer of the shelf, for arenas
//! whose header was seen to be right.
//!
//! A caller may rely on this, for any words: a lookup enters at most as many branches as the degree has depths, looks at
//! no more entries than the arena has, and writes nothing. `find` is the one search of a chain.

#![tactic(auto)]

pub mod links;

ghost use Rattle.std.specs.Prelude.{◌≡◌, true};
ghost use Rattle.layout.specs.Layout.{Lent};
ghost use Rattle.layout.specs.Columns.{columns};
ghost use Rattle.trie.specs.Entry.{matches};
ghost use Rattle.lookup.specs.Lookup.{names_kind, entry_at, kid_at, path_end, longest, hit_from, get_below, looked};

use layout::{Shape, words};
use trie::Entry;

// The child of a branch at a segment. On damaged words a bitmap may promise more children than the branch has room for.
#[tactic(auto, using(crate::proofs::FindLaws::kind_says, crate::proofs::FindLaws::child_by, layout::proofs::ColumnLaws::has_low))]
fn child_at(a: &[u64], z: Shape, r: u64, segment: u64) -> u64
    requires lent { Lent z a.now }
    requires is_branch { names_kind z 0 r ≡ true }
    ensures { result ≡ kid_at (columns z a.now) r segment }
{
    match sparse_array::map_index(words::word(a, z, r, words::BITMAP), segment) {
        Ok(Some(i)) => links::kid(a, z, r, i as u64),
        Ok(None) => 0,
        Err(_) => 0,
    }
}

// Where the path of a hash ends: at the front of a chain, or at no entry.
#[tactic(auto, using(crate::proofs::FindLaws::path_first, crate::proofs::FindLaws::path_stays, crate::proofs::FindLaws::path_on, crate::proofs::FindLaws::path_over))]
pub fn descend(a: &[u64], z: Shape, root: u64, hash: u64) -> u64
    requires { Lent z a.now }
    ensures { result ≡ path_end z (columns z a.now) hash z.depths 0 root }
{
    let mut r = root;
    for depth in 0..z.depths {
        if !links::is_branch(z, r) {
            return r;
        }
        r = child_at(a, z, r, segments::segment_at(hash, depth, z.bits));
    }
    r
}

// The entry that a cell holds.
#[tactic(auto, using(crate::proofs::FindLaws::has_part, crate::proofs::FindLaws::entry_is))]
pub fn entry(a: &[u64], z: Shape, r: u64) -> Entry
    requires lent { Lent z a.now }
    requires is_entry { names_kind z 1 r ≡ true }
    ensures { result ≡ entry_at (columns z a.now) r }
{
    Entry {
        hash: words::word(a, z, r, words::HASH),
        key: words::word(a, z, r, words::KEY),
        value: words::word(a, z, r, words::VALUE),
    }
}

// Whether an entry has this hash and this key: the key is read only where the hash agrees.
#[tactic(auto, using(crate::proofs::FindLaws::hash_same, crate::proofs::FindLaws::hash_other, crate::proofs::FindLaws::has_part))]
fn has_key(a: &[u64], z: Shape, r: u64, hash: u64, key: u64) -> bool
    requires lent { Lent z a.now }
    requires is_entry { names_kind z 1 r ≡ true }
    ensures { result ≡ matches hash key (entry_at (columns z a.now) r) }
{
    words::word(a, z, r, words::HASH) == hash && words::word(a, z, r, words::KEY) == key
}

// The entry of a chain that has this hash and this key, from the chain's front on.
#[tactic(auto, using(crate::proofs::FindLaws::hit_ends, crate::proofs::FindLaws::search_here, crate::proofs::FindLaws::search_on, crate::proofs::FindLaws::search_over))]
pub fn find(a: &[u64], z: Shape, front: u64, hash: u64, key: u64) -> Option<u64>
    requires { Lent z a.now }
    ensures { result ≡ hit_from z (columns z a.now) hash key (longest z) front }
{
    let mut r = front;
    for _ in 0..z.entries {
        if !links::is_entry(z, r) {
            return None;
        }
        if has_key(a, z, r, hash, key) {
            return Some(r);
        }
        r = links::kid(a, z, r, 0);
    }
    None
}

// The value below a root.
#[tactic(auto, using(crate::proofs::FindLaws::hit_names, crate::proofs::FindLaws::has_part, crate::proofs::FindLaws::entry_word, crate::proofs::FindLaws::value_below))]
pub fn get(a: &[u64], z: Shape, root: u64, hash: u64, key: u64) -> Option<u64>
    requires { Lent z a.now }
    ensures { looked result ≡ get_below z a.now root hash key }
{
    let r = find(a, z, descend(a, z, root, hash), hash, key)?;
    Some(words::word(a, z, r, words::VALUE))
}
