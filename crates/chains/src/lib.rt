//! The writers of chains, a layer of the shelf on `cells`: a new entry in front of copies of some entries and of a chain that
//! is shared, and a chain with an entry taken out, the entries before it copied and those behind it shared. An update makes
//! the leaf at the end of its path with these.
//!
//! A caller may rely on this: on any words each of them writes what its mirror in specs/Chains.antt says and stays inside
//! the arena, and answers 0 where no cell could be taken; what it means on a sound arena is in proofs/Meaning.antt.
//!
//! A reference is answered as it is stored, 0 for none: that is document 01's word for it, and what `Wrote` in the mirrors holds.

#![tactic(auto)]

ghost use Rattle.std.specs.Prelude.{◌≡◌, true};
ghost use Rattle.layout.specs.Layout.{Lent};
ghost use Rattle.layout.specs.Columns.{columns};
ghost use Rattle.lookup.specs.Lookup.{names_kind};
ghost use Rattle.cells.specs.Mirrors.{Wrote, wrote};
ghost use Rattle.chains.specs.Chains.{length_at, entry_made, entry_copied, copied_on, closed, front_pushed, taken_from};

use cells::{fill, free, shares};
use layout::{Kind, Shape, words};
use lookup::links;
use trie::Entry;

// What a new chain ends with: copies of `count` entries from `from` on, and behind them the chain `rest`, which is shared.
#[derive(Clone, Copy, Debug, PartialEq, Eq)]
pub struct Tail {
    pub count: u64,
    pub from: u64,
    pub rest: u64,
}

// How long the chain is whose front a reference names; 0 where it names no entry.
#[tactic(auto, using(lookup::proofs::FindLaws::has_part, crate::proofs::StepLaws::length_entry, crate::proofs::StepLaws::length_none))]
pub fn length(a: &[u64], z: Shape, r: u64) -> u64
    requires { Lent z a.now }
    ensures { result ≡ length_at z (columns z a.now) r }
{
    if links::is_entry(z, r) {
        words::word(a, z, r, words::MARK)
    } else {
        0
    }
}

// A new entry, with nothing behind it yet. `length` is that of the chain that will stand from it on.
fn new_entry(a: &mut [u64], z: Shape, length: u64, entry: Entry) -> u64
    requires { Lent z a.old }
    ensures { wrote result a.new ≡ entry_made z a.old length entry }
{
    let r = free::take(&mut *a, z, Kind::Entry);
    if r == 0 {
        return 0;
    }
    fill::fill_entry(&mut *a, z, r, length, 0, entry);
    r
}

// An entry once more. The chain from the copy on is one shorter: an entry behind it is left out.
#[tactic(auto, using(lookup::proofs::FindLaws::has_part, crate::proofs::StepLaws::copy_is))]
fn copy_entry(a: &mut [u64], z: Shape, r: u64) -> u64
    requires lent { Lent z a.old }
    requires is_entry { names_kind z 1 r ≡ true }
    ensures { wrote result a.new ≡ entry_copied z a.old r }
{
    let length = shares::fewer(words::word(&*a, z, r, words::MARK));
    let entry = lookup::entry(&*a, z, r);
    new_entry(a, z, length, entry)
}

// Copies of `count` entries from `from` on, one behind the other, behind the new entry `first`. Answers the last of them.
// Each is whole before it is put behind the one before it, so that the words hang together all the time.
#[tactic(auto, using(crate::proofs::StepLaws::entry_refs, crate::proofs::StepLaws::on_over, crate::proofs::StepLaws::on_ends))]
fn copy_on(a: &mut [u64], z: Shape, count: u64, first: u64, from: u64) -> u64
    requires lent { Lent z a.old }
    requires is_entry { names_kind z 1 first ≡ true }
    ensures { wrote result a.new ≡ copied_on z count first from a.old }
{
    let mut last = first;
    let mut r = from;
    for _ in 0..count {
        if !links::is_entry(z, r) {
            return 0;
        }
        let next = links::kid(&*a, z, r, 0);
        let copy = copy_entry(&mut *a, z, r);
        if copy == 0 {
            return 0;
        }
        fill::put_in(&mut *a, z, last, 0, copy);
        last = copy;
        r = next;
    }
    last
}

// The tail behind the new entry `first`. Answers `first`, or 0 where no cell could be taken.
fn stand_behind(a: &mut [u64], z: Shape, first: u64, tail: Tail) -> u64
    requires lent { Lent z a.old }
    requires is_entry { names_kind z 1 first ≡ true }
    ensures { wrote result a.new ≡ closed z first tail.rest (copied_on z tail.count first tail.from a.old) }
{
    let last = copy_on(&mut *a, z, tail.count, first, tail.from);
    if last == 0 {
        return 0;
    }
    shares::share(&mut *a, z, tail.rest);
    fill::put_in(&mut *a, z, last, 0, tail.rest);
    first
}

// A new entry in front of a tail. `length` is that of the whole chain.
pub fn push_front(a: &mut [u64], z: Shape, length: u64, entry: Entry, tail: Tail) -> u64
    requires { Lent z a.old }
    ensures { wrote result a.new ≡ front_pushed z a.old length entry tail.count tail.from tail.rest }
{
    let first = new_entry(&mut *a, z, length, entry);
    if first == 0 {
        return 0;
    }
    stand_behind(a, z, first, tail)
}

// A chain with an entry taken out: a tail of copies of the entries before it and of what stands behind it. Answers its front:
// the shared chain itself, and so maybe 0, where nothing is copied.
pub fn take_from(a: &mut [u64], z: Shape, tail: Tail) -> u64
    requires { Lent z a.old }
    ensures { wrote result a.new ≡ taken_from z tail.count tail.from tail.rest a.old }
{
    if tail.count == 0 {
        shares::share(&mut *a, z, tail.rest);
        return tail.rest;
    }
    if !links::is_entry(z, tail.from) {
        return 0;
    }
    let next = links::kid(&*a, z, tail.from, 0);
    let first = copy_entry(&mut *a, z, tail.from);
    if first == 0 {
        return 0;
    }
    stand_behind(
        a,
        z,
        first,
        Tail {
            count: tail.count - 1,
            from: next,
            rest: tail.rest,
        },
    )
}
