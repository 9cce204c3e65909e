//! The call that takes an entry out, where the header was seen to be right: remove. A layer of the shelf, whose public calls
//! read the header first.
//!
//! It keeps the old edition. First a pass that only reads: it finds the key and what will be left on its path. Then the chain
//! without the entry is made, with copies of the entries before it, and the path above it; everything else is shared.

#![tactic(auto)]

ghost use Rattle.std.specs.Prelude.{◌≡◌, true, ◌<◌};
ghost use Rattle.layout.specs.Layout.{Lent};
ghost use Rattle.layout.specs.Columns.{columns};
ghost use Rattle.cells.specs.Slots.{held_slot};
ghost use Rattle.replies.specs.Answers.{update_answer};
ghost use Rattle.replies.specs.Outcomes.{leaves};
ghost use Rattle.removes.specs.Calls.{left_branches, is_none_left, cutting, cut_of, lacks, pruned_to, take_to, cut_to, cutting_to, remove_in};

use cells::{shares, slots};
use chains::Tail;
use layout::{Shape, words};
use lookup::links;
use prunes::Left;
use replies::{Refusal, Updated};

// What the reading pass finds: the edition's root, the size of the new edition; what will be left of the chain at the end of the
// path, namely copies of the entries before the one that is removed and what stands behind it; how many branches will be left on
// the path; and whether nothing at all will be left, which the writing pass reads once.
#[derive(Clone, Copy, Debug, PartialEq, Eq)]
pub struct Cut {
    pub root: u64,
    pub size: u64,
    pub tail: Tail,
    pub branches: u64,
    pub empty: bool,
}

fn branches_left(left: Left) -> u64
    ensures { result ≡ left_branches left }
{
    match left {
        Left::Nothing => 0,
        Left::Single => 0,
        Left::More(branches) => branches,
    }
}

fn none_left(left: Left) -> bool
    ensures { result ≡ is_none_left left }
{
    match left {
        Left::Nothing => true,
        Left::Single => false,
        Left::More(_) => false,
    }
}

// The key stands at `hit`, in the chain from `front` on.
#[tactic(auto, using(crate::proofs::StepLaws::cut_is))]
fn plan_cut(a: &[u64], z: Shape, root: u64, size: u64, hash: u64, front: u64, hit: u64) -> Cut
    requires { Lent z a.now }
    ensures { result ≡ cutting z (columns z a.now) root size hash front hit }
{
    let length = chains::length(a, z, front);
    let left = prunes::left_of(a, z, hash, shares::fewer(length), z.depths, root);
    Cut {
        root,
        size: shares::fewer(size),
        tail: Tail {
            count: shares::less(length, chains::length(a, z, hit)),
            from: front,
            rest: links::kid(a, z, hit, 0),
        },
        branches: branches_left(left),
        empty: none_left(left),
    }
}

// The reading pass below an edition that is held. None where the key is not there.
#[tactic(auto, using(lookup::proofs::FindLaws::survey_is), unfolding(crate::specs::Calls::cut_of))]
fn survey(a: &[u64], z: Shape, edition: u64, hash: u64, key: u64) -> Option<Cut>
    requires lent { Lent z a.now }
    requires in_slots { edition < z.slots }
    ensures { result ≡ cut_of z a.now edition hash key }
{
    let root = words::slot_word(a, z, edition, words::ROOT);
    let size = words::slot_word(a, z, edition, words::SIZE);
    let front = lookup::descend(a, z, root, hash);
    match lookup::find(a, z, front, hash, key) {
        Some(hit) => Some(plan_cut(a, z, root, size, hash, front, hit)),
        None => None,
    }
}

// The path above the chain that is left, then the slot.
#[tactic(auto, using(cells::proofs::KeptLaws::lent_same, crate::proofs::StepLaws::path_is))]
fn write_path(
    a: &mut [u64],
    z: Shape,
    hash: u64,
    found: Cut,
    slot: u64,
    leaf: u64,
) -> Result<Updated, Refusal>
    requires lent { Lent z a.old }
    requires in_slots { slot < z.slots }
    ensures { leaves (update_answer result) a.new ≡ pruned_to z hash found slot leaf a.old }
{
    let root = prunes::prune(&mut *a, z, hash, leaf, z.depths, found.root);
    let entries = found.tail.count;
    grants::hold_root(a, z, slot, root, found.size, found.branches, entries)
}

// A chain is empty where nothing is left of it; where entries are to be copied, it is because no cell could be taken.
#[tactic(auto, unfolding(crate::specs::Calls::lacks))]
fn is_lacking(leaf: u64, before: u64) -> bool
    ensures { result ≡ lacks leaf before }
{
    leaf == 0 && before > 0
}

// The chain without the entry, then the path above it. On a sound arena there are the cells that were counted; on any other a
// free chain may break off, and then what was written stands, but no slot is taken.
#[tactic(auto, using(cells::proofs::KeptLaws::lent_same), unfolding(crate::specs::Calls::chain_to))]
fn write_chain(
    a: &mut [u64],
    z: Shape,
    hash: u64,
    found: Cut,
    slot: u64,
) -> Result<Updated, Refusal>
    requires lent { Lent z a.old }
    requires in_slots { slot < z.slots }
    ensures { leaves (update_answer result) a.new ≡ take_to z a.old hash found slot }
{
    let leaf = chains::take_from(&mut *a, z, found.tail);
    if is_lacking(leaf, found.tail.count) {
        return Err(Refusal::NoEntryCells);
    }
    write_path(a, z, hash, found, slot, leaf)
}

// The new edition in a slot. Where nothing is left it is empty, and takes no cell.
#[tactic(auto, unfolding(crate::specs::Calls::cut_to))]
fn write(a: &mut [u64], z: Shape, hash: u64, found: Cut, slot: u64) -> Result<Updated, Refusal>
    requires lent { Lent z a.old }
    requires in_slots { slot < z.slots }
    ensures { leaves (update_answer result) a.new ≡ cut_to z a.old hash found slot }
{
    if found.empty {
        return grants::hold_edition(a, z, slot, 0, found.size, found.branches, found.tail.count);
    }
    write_chain(a, z, hash, found, slot)
}

// A removal carried out, if there are a slot and the cells for it.
#[tactic(auto, using(grants::proofs::CaseLaws::room_in, grants::proofs::CaseLaws::on_At, grants::proofs::CaseLaws::on_refused))]
fn write_found(a: &mut [u64], z: Shape, hash: u64, found: Cut) -> Result<Updated, Refusal>
    requires { Lent z a.old }
    ensures { leaves (update_answer result) a.new ≡ cutting_to z a.old hash found }
{
    let slot = grants::find_room(&*a, z, found.branches, found.tail.count)?;
    write(a, z, hash, found, slot)
}

#[tactic(auto, using(cells::proofs::SlotLaws::held_in), unfolding(grants::specs::Rooms::update_in))]
fn remove_held(
    a: &mut [u64],
    z: Shape,
    edition: u64,
    hash: u64,
    key: u64,
) -> Result<Updated, Refusal>
    requires lent { Lent z a.old }
    requires is_held { held_slot z a.old edition ≡ true }
    ensures { leaves (update_answer result) a.new ≡ remove_in z a.old edition hash key }
{
    let found = survey(&*a, z, edition, hash, key).ok_or(Refusal::Absent)?;
    write_found(a, z, hash, found)
}

// An edition with an entry taken out, in the lowest free slot.
#[tactic(auto, unfolding(grants::specs::Rooms::update_in))]
pub fn remove(
    a: &mut [u64],
    z: Shape,
    edition: u64,
    hash: u64,
    key: u64,
) -> Result<Updated, Refusal>
    requires { Lent z a.old }
    ensures { leaves (update_answer result) a.new ≡ remove_in z a.old edition hash key }
{
    if slots::is_held(&*a, z, edition) {
        remove_held(a, z, edition, hash, key)
    } else {
        Err(Refusal::NoSuchEdition)
    }
}
