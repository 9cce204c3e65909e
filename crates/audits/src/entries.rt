//! Entry cells: links, hashes and keys of the chains, and the words of the free ones.
ghost use Rattle.std.specs.Prelude.{◌≡◌, true};
ghost use Rattle.layout.specs.Layout.{Lent};
ghost use Rattle.layout.specs.Columns.{columns};
ghost use Rattle.trie.specs.Entry.{Word64};
ghost use Rattle.lookup.specs.Lookup.{names_kind, entry_at};
ghost use Rattle.audits.specs.Audits.{one_more, linked_to, linked, entry_right, key_right, EntriesFit, entries_right, keys_right};

use layout::{Shape, words};
use lookup::links;

fn is_one_more(m: u64, n: u64) -> bool
    ensures { result ≡ one_more m n }
{
    n < m && m - n == 1
}

// Whether an entry may stand before the one that `next` names.
#[tactic(auto, using(lookup::proofs::FindLaws::has_part, lookup::proofs::FindLaws::entry_word), unfolding(crate::specs::Audits::linked_to, crate::specs::Audits::is_live))]
fn is_linked_to(a: &[u64], z: Shape, r: u64, next: u64) -> bool
    requires lent { Lent z a.now }
    requires is_entry { names_kind z 1 r ≡ true }
    ensures { result ≡ linked_to z (columns z a.now) r next }
{
    links::is_entry(z, next)
        && words::word(a, z, next, words::COUNT) != 0
        && is_one_more(
            words::word(a, z, r, words::MARK),
            words::word(a, z, next, words::MARK),
        )
        && words::word(a, z, next, words::HASH) == words::word(a, z, r, words::HASH)
}

fn is_linked(a: &[u64], z: Shape, r: u64) -> bool
    requires lent { Lent z a.now }
    requires is_entry { names_kind z 1 r ≡ true }
    ensures { result ≡ linked z (columns z a.now) r }
{
    let next = links::kid(a, z, r, 0);
    if next == 0 {
        return words::word(a, z, r, words::MARK) == 1;
    }
    is_linked_to(a, z, r, next)
}

// An entry in use, or a free cell. All its words are read, so that it is known to hold 64-bit words.
#[tactic(auto, using(lookup::proofs::FindLaws::has_part, lookup::proofs::FindLaws::entry_word, crate::proofs::StepLaws::entry_fits, crate::proofs::StepLaws::entry_used, crate::proofs::StepLaws::entry_free), unfolding(crate::specs::Audits::free_entry))]
fn is_right(a: &[u64], z: Shape, r: u64) -> bool
    requires lent { Lent z a.now }
    requires is_entry { names_kind z 1 r ≡ true }
    ensures answers { result ≡ entry_right z (columns z a.now) r }
    ensures word64 { Word64 (entry_at (columns z a.now) r) }
{
    let hash = words::word(a, z, r, words::HASH);
    let key = words::word(a, z, r, words::KEY);
    let value = words::word(a, z, r, words::VALUE);
    if words::word(a, z, r, words::COUNT) != 0 {
        return is_linked(a, z, r);
    }
    links::kid(a, z, r, 0) == 0 && hash == 0 && key == 0 && value == 0
}

// Every entry cell.
pub fn are_right(a: &[u64], z: Shape) -> bool
    requires { Lent z a.now }
    ensures answers { result ≡ entries_right z (columns z a.now) }
    ensures entries_fit { result ≡ true → EntriesFit z (columns z a.now) }
{
    for i in 0..z.entries {
        if !is_right(a, z, 2 * i + 3) {
            return false;
        }
    }
    true
}

// Whether no entry behind this one has its hash and key.
fn has_own_key(a: &[u64], z: Shape, r: u64) -> bool
    requires lent { Lent z a.now }
    requires is_entry { names_kind z 1 r ≡ true }
    ensures { result ≡ key_right z (columns z a.now) r }
{
    if words::word(a, z, r, words::COUNT) == 0 {
        return true;
    }
    let behind = links::kid(a, z, r, 0);
    let hash = words::word(a, z, r, words::HASH);
    let key = words::word(a, z, r, words::KEY);
    lookup::find(a, z, behind, hash, key).is_none()
}

// Every entry in use. Each is compared with those behind it alone, which is each pair of a chain once.
pub fn have_own_keys(a: &[u64], z: Shape) -> bool
    requires { Lent z a.now }
    ensures { result ≡ keys_right z (columns z a.now) }
{
    for i in 0..z.entries {
        if !has_own_key(a, z, 2 * i + 3) {
            return false;
        }
    }
    true
}
