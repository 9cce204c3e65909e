//! What a walk over an edition's entries is for: a listing and a comparison. A layer of the shelf, for arenas whose
//! header was seen to be right.

#![tactic(auto)]

ghost use Rattle.std.specs.Prelude.{◌≡◌, true, ◌/◌, length, take, drop};
ghost use Rattle.layout.specs.Layout.{Lent};
ghost use Rattle.layout.specs.Columns.{columns};
ghost use Rattle.lookup.specs.Lookup.{names_kind, entry_at};
ghost use Rattle.iter.specs.Met.{met, still, Settled};
ghost use Rattle.reads.specs.Listed.{written, written_over};
ghost use Rattle.reads.specs.Agrees.{is_entry_in, agree};

use iter::Walk;
use layout::{Shape, words};
use trie::Entry;

// The words that an entry takes in an output: hash, key, value.
pub const ENTRY_WORDS: usize = 3;

// Past `n` entries, or past all if there are fewer.
#[tactic(auto, using(iter::proofs::WalkLaws::met_stop))]
fn skip(a: &[u64], z: Shape, walk: &mut Walk, n: u64)
    requires lent { Lent z a.now }
    requires settled { Settled z walk.old }
    ensures still_to_come { still z a.now walk.new ≡ drop n (still z a.now walk.old) }
    ensures settled { Settled z walk.new }
{
    for _ in 0..n {
        if !walk.has_entry(z) {
            return;
        }
        walk.next(a, z);
    }
}

// Hash, key and value of each entry that is still to come, while three words of room remain. Answers how many.
#[tactic(auto, using(lookup::proofs::FindLaws::has_part, iter::proofs::WalkLaws::entry_here))]
fn write(a: &[u64], z: Shape, walk: &mut Walk, out: &mut [u64]) -> u64
    requires lent { Lent z a.now }
    requires settled { Settled z walk.old }
    ensures answers { result ≡ length (take (length out.old / 3) (still z a.now walk.old)) }
    ensures leaves { out.new ≡ written_over (take (length out.old / 3) (still z a.now walk.old)) out.old }
{
    let room = out.len() / ENTRY_WORDS;
    for k in 0..room {
        if !walk.has_entry(z) {
            return k as u64;
        }
        let end = ENTRY_WORDS * k;
        let entry = lookup::entry(a, z, walk.at);
        out[end] = entry.hash;
        out[end + 1] = entry.key;
        out[end + 2] = entry.value;
        walk.next(a, z);
    }
    room as u64
}

// The entries below a root from a place on, as many as there is room for. Answers how many.
pub fn list(a: &[u64], z: Shape, root: u64, place: u64, out: &mut [u64]) -> u64
    requires { Lent z a.now }
    ensures answers { result ≡ length (written (met z a.now root) place (length out.old)) }
    ensures leaves { out.new ≡ written_over (written (met z a.now root) place (length out.old)) out.old }
{
    let mut walk = Walk::start(a, z, root);
    skip(a, z, &mut walk, place);
    write(a, z, &mut walk, out)
}

// Whether an entry stands below a root with the same value. It goes into the chain itself: the lookup then has one caller, and
// becomes one piece of code with the call.
#[tactic(auto, using(crate::proofs::WriteLaws::is_in_value, crate::proofs::WriteLaws::is_in_missing, lookup::proofs::FindLaws::hit_names, lookup::proofs::FindLaws::has_part, lookup::proofs::FindLaws::entry_word, lookup::proofs::FindLaws::value_below))]
fn is_in(a: &[u64], z: Shape, root: u64, entry: Entry) -> bool
    requires { Lent z a.now }
    ensures { result ≡ is_entry_in z a.now root entry }
{
    let front = lookup::descend(a, z, root, entry.hash);
    match lookup::find(a, z, front, entry.hash, entry.key) {
        Some(hit) => words::word(a, z, hit, words::VALUE) == entry.value,
        None => false,
    }
}

// Whether each entry below the first root is below the second with the same value.
#[tactic(auto, using(crate::proofs::WriteLaws::agree_start, crate::proofs::WriteLaws::in_same, crate::proofs::WriteLaws::every_stop, crate::proofs::WriteLaws::every_next, crate::proofs::WriteLaws::every_none, iter::proofs::WalkLaws::met_stop, iter::proofs::WalkLaws::met_entry, iter::proofs::WalkLaws::entry_here))]
pub fn agrees(a: &[u64], z: Shape, first: u64, second: u64) -> bool
    requires { Lent z a.now }
    ensures { result ≡ agree z a.now first second }
{
    // A while: the walk itself shows how many entries there are.
    let mut walk = Walk::start(a, z, first);
    while walk.has_entry(z) {
        if !is_in(a, z, second, lookup::entry(a, z, walk.at)) {
            return false;
        }
        walk.next(a, z);
    }
    true
}
