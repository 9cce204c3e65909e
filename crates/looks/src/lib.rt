//! The calls that look, where the header was seen to be right: size, cells in use, get, list, equal. None writes a word of
//! the arena. A layer of the shelf, whose public calls read the header first.

#![tactic(auto)]

ghost use Rattle.std.specs.Prelude.{◌≡◌, ◌<◌};
ghost use Rattle.layout.specs.Layout.{Lent};
ghost use Rattle.replies.specs.Answers.{number_answer, truth_answer, cells_answer};
ghost use Rattle.replies.specs.Outcomes.{leaves};
ghost use Rattle.looks.specs.Calls.{size_in, in_use_in, get_in, held_listed, list_in, same_entries, equal_in};

use cells::slots;
use layout::{Kind, Shape, words};
use replies::{CellCounts, Refusal};

// How many entries an edition has.
#[tactic(auto, using(cells::proofs::SlotLaws::held_in), unfolding(crate::specs::Calls::size_in))]
pub fn size(a: &[u64], z: Shape, edition: u64) -> Result<u64, Refusal>
    requires { Lent z a.now }
    ensures { number_answer result ≡ size_in z a.now edition }
{
    if slots::is_held(a, z, edition) {
        Ok(words::slot_word(a, z, edition, words::SIZE))
    } else {
        Err(Refusal::NoSuchEdition)
    }
}

// How many cells of each kind are in use.
pub fn in_use(a: &[u64], z: Shape) -> Result<CellCounts, Refusal>
    requires { Lent z a.now }
    ensures { cells_answer result ≡ in_use_in a.now }
{
    Ok(CellCounts {
        branches: words::kind_word(a, z, words::IN_USE, Kind::Branch),
        entries: words::kind_word(a, z, words::IN_USE, Kind::Entry),
    })
}

// The value of a hash and a key in an edition.
#[tactic(auto, using(cells::proofs::SlotLaws::held_in, crate::proofs::LookLaws::get_value), unfolding(crate::specs::Calls::get_in))]
pub fn get(a: &[u64], z: Shape, edition: u64, hash: u64, key: u64) -> Result<u64, Refusal>
    requires { Lent z a.now }
    ensures { number_answer result ≡ get_in z a.now edition hash key }
{
    if slots::is_held(a, z, edition) {
        let root = words::slot_word(a, z, edition, words::ROOT);
        lookup::get(a, z, root, hash, key).ok_or(Refusal::Absent)
    } else {
        Err(Refusal::NoSuchEdition)
    }
}

// At the end there is nothing to walk for, whatever the room.
#[tactic(auto, unfolding(crate::specs::Calls::list_from))]
fn list_held(a: &[u64], z: Shape, edition: u64, place: u64, out: &mut [u64]) -> Result<u64, Refusal>
    requires lent { Lent z a.now }
    requires in_slots { edition < z.slots }
    ensures { leaves (number_answer result) out.new ≡ held_listed z a.now edition place out.old }
{
    let size = words::slot_word(a, z, edition, words::SIZE);
    if size < place {
        return Err(Refusal::BeyondTheEnd);
    }
    if place == size {
        return Ok(0);
    }
    if out.len() < reads::ENTRY_WORDS {
        return Err(Refusal::OutputTooShort);
    }
    let root = words::slot_word(a, z, edition, words::ROOT);
    Ok(reads::list(a, z, root, place, out))
}

// The entries of an edition from a place on, as many as there is room for.
#[tactic(auto, using(cells::proofs::SlotLaws::held_in), unfolding(crate::specs::Calls::list_in))]
pub fn list(a: &[u64], z: Shape, edition: u64, place: u64, out: &mut [u64]) -> Result<u64, Refusal>
    requires { Lent z a.now }
    ensures { leaves (number_answer result) out.new ≡ list_in z a.now edition place out.old }
{
    if slots::is_held(a, z, edition) {
        list_held(a, z, edition, place, out)
    } else {
        Err(Refusal::NoSuchEdition)
    }
}

// Two editions with one root are one trie. Where the sizes agree, one way of looking is enough.
#[tactic(auto, unfolding(crate::specs::Calls::same_entries))]
fn is_equal(a: &[u64], z: Shape, first: u64, second: u64) -> bool
    requires lent { Lent z a.now }
    requires in_slots { (first < z.slots) × (second < z.slots) }
    ensures { result ≡ same_entries z a.now first second }
{
    let root = words::slot_word(a, z, first, words::ROOT);
    let other = words::slot_word(a, z, second, words::ROOT);
    if root == other {
        return true;
    }
    if words::slot_word(a, z, first, words::SIZE) != words::slot_word(a, z, second, words::SIZE) {
        return false;
    }
    reads::agrees(a, z, root, other)
}

// Whether two editions have the same entries.
#[tactic(auto, using(cells::proofs::SlotLaws::held_in), unfolding(crate::specs::Calls::equal_in))]
pub fn equal(a: &[u64], z: Shape, first: u64, second: u64) -> Result<bool, Refusal>
    requires { Lent z a.now }
    ensures { truth_answer result ≡ equal_in z a.now first second }
{
    if !slots::is_held(a, z, first) || !slots::is_held(a, z, second) {
        return Err(Refusal::NoSuchEdition);
    }
    Ok(is_equal(a, z, first, second))
}
