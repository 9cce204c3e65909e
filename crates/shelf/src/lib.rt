//! The shelf: editions of a persistent hash trie in a lent arena of 64-bit words. This is the public surface; every
//! crate below is a layer of it.
//!
//! A call takes the arena as a slice and has no precondition: on any words and numbers it ends, stays inside the slice,
//! and refuses wrong input with document 01's number for it, with nothing written. What each call answers, and every
//! word that it leaves, is one definition per call in specs/Calls.antt of the crates `makes`, `updates`, `removes`,
//! `drops` and `looks`; what that means on a sound arena is in its contract (specs/Terms.antt there). Check is stated by
//! its contract alone, in the crate `checks`. The answers are those of the crate `replies`.

#![tactic(auto)]

ghost use Rattle.makes.specs.Terms.{Formats, MakesNew, Shares};
ghost use Rattle.updates.specs.Terms.{Inserts, Changes};
ghost use Rattle.removes.specs.Terms.{Removes};
ghost use Rattle.drops.specs.Terms.{Drops};
ghost use Rattle.checks.specs.Terms.{Checks};
ghost use Rattle.looks.specs.Terms.{Sizes, Uses, Gets, Lists, Compares};

use layout::header;
pub use replies::{CellCounts, Refusal, Updated};
use trie::Entry;

// Makes an arena of the words: all cells free, no edition held. Words beyond the total stay as they are.
pub fn format(
    a: &mut [u64],
    degree: u64,
    branches: u64,
    entries: u64,
    editions: u64,
) -> Result<(), Refusal>
    ensures { Formats a.old degree branches entries editions result a.new }
{
    makes::format(a, degree, branches, entries, editions)
}

// An edition without entries, in the lowest free slot. It takes no cell.
pub fn new_edition(a: &mut [u64]) -> Result<u64, Refusal>
    ensures { MakesNew a.old result a.new }
{
    let Some(z) = header::read(&*a) else {
        return Err(Refusal::Damaged);
    };
    makes::new_edition(a, z)
}

// The same edition once more, in the lowest free slot. It takes no cell, and each of the two can be dropped by itself.
pub fn share(a: &mut [u64], edition: u64) -> Result<u64, Refusal>
    ensures { Shares a.old edition result a.new }
{
    let Some(z) = header::read(&*a) else {
        return Err(Refusal::Damaged);
    };
    makes::share(a, z, edition)
}

// An edition with an entry put in it, in the lowest free slot; the old edition stays as it is. Answers the new edition, and
// how many branch cells and entry cells it took: the rest is shared.
pub fn insert(
    a: &mut [u64],
    edition: u64,
    hash: u64,
    key: u64,
    value: u64,
) -> Result<Updated, Refusal>
    ensures { Inserts a.old edition hash key value result a.new }
{
    let Some(z) = header::read(&*a) else {
        return Err(Refusal::Damaged);
    };
    updates::insert(a, z, edition, Entry { hash, key, value })
}

// An edition with another value for a key that it has; else as an insert.
pub fn change(
    a: &mut [u64],
    edition: u64,
    hash: u64,
    key: u64,
    value: u64,
) -> Result<Updated, Refusal>
    ensures { Changes a.old edition hash key value result a.new }
{
    let Some(z) = header::read(&*a) else {
        return Err(Refusal::Damaged);
    };
    updates::change(a, z, edition, Entry { hash, key, value })
}

// An edition with an entry taken out, in the lowest free slot; the old edition stays as it is. Answers the new edition, and how
// many branch cells and entry cells it took: the rest is shared.
pub fn remove(a: &mut [u64], edition: u64, hash: u64, key: u64) -> Result<Updated, Refusal>
    ensures { Removes a.old edition hash key result a.new }
{
    let Some(z) = header::read(&*a) else {
        return Err(Refusal::Damaged);
    };
    removes::remove(a, z, edition, hash, key)
}

// Lets an edition go: its slot is free, and every cell that no other edition reaches. Answers how many branch cells and entry
// cells were freed.
pub fn drop(a: &mut [u64], edition: u64) -> Result<CellCounts, Refusal>
    ensures { Drops a.old edition result a.new }
{
    let Some(z) = header::read(&*a) else {
        return Err(Refusal::Damaged);
    };
    drops::drop(a, z, edition)
}

// How many entries an edition has.
pub fn size(a: &[u64], edition: u64) -> Result<u64, Refusal>
    ensures { Sizes a.now edition result }
{
    let Some(z) = header::read(a) else {
        return Err(Refusal::Damaged);
    };
    looks::size(a, z, edition)
}

// How many cells of each kind are in use: on a sound arena, those that are reached from held editions, each once.
pub fn in_use(a: &[u64]) -> Result<CellCounts, Refusal>
    ensures { Uses a.now result }
{
    let Some(z) = header::read(a) else {
        return Err(Refusal::Damaged);
    };
    looks::in_use(a, z)
}

// The value of a hash and a key in an edition.
pub fn get(a: &[u64], edition: u64, hash: u64, key: u64) -> Result<u64, Refusal>
    ensures { Gets a.now edition hash key result }
{
    let Some(z) = header::read(a) else {
        return Err(Refusal::Damaged);
    };
    looks::get(a, z, edition, hash, key)
}

// Writes hash, key, value for each entry of an edition from a place in its listing on, while three words of room remain,
// and answers how many entries. The remaining room is left as it is.
pub fn list(a: &[u64], edition: u64, place: u64, out: &mut [u64]) -> Result<u64, Refusal>
    ensures { Lists a.now edition place out.old result out.new }
{
    let Some(z) = header::read(a) else {
        return Err(Refusal::Damaged);
    };
    looks::list(a, z, edition, place, out)
}

// Whether two editions have the same entries, whatever their order in chains.
pub fn equal(a: &[u64], first: u64, second: u64) -> Result<bool, Refusal>
    ensures { Compares a.now first second result }
{
    let Some(z) = header::read(a) else {
        return Err(Refusal::Damaged);
    };
    looks::equal(a, z, first, second)
}

// Whether the arena is sound: on 0 it is, and the work words have each branch's, then each entry's count; on 4 it is not, and
// these words are 0. Work words behind them stay, and the arena is only read.
pub fn check(a: &[u64], work: &mut [u64]) -> Result<(), Refusal>
    ensures { Checks a.now work.old result work.new }
{
    let Some(z) = header::read(a) else {
        return Err(Refusal::Damaged);
    };
    checks::check(a, work, z)
}
