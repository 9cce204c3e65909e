//! The calls that write an entry, where the header was seen to be right: insert and change. A layer of the shelf, whose public
//! calls read the header first.
//!
//! Each keeps the old edition. First a pass that only reads: it finds the key, looks for a slot, and counts the cells that
//! are needed. Then the new entry is made, with copies of the chain entries before the one it takes the place of, and the
//! path above it; everything else is shared.

#![tactic(auto)]

ghost use Rattle.std.specs.Prelude.{◌≡◌, true, ◌<◌};
ghost use Rattle.layout.specs.Layout.{Lent};
ghost use Rattle.layout.specs.Columns.{columns};
ghost use Rattle.cells.specs.Slots.{held_slot};
ghost use Rattle.replies.specs.Answers.{update_answer};
ghost use Rattle.replies.specs.Outcomes.{leaves};
ghost use Rattle.updates.specs.Calls.{replacing, adding, plan_of, write_to, planned_to, wanted, write_in, insert_in, change_in};

use cells::{shares, slots};
use chains::Tail;
use layout::{Shape, words};
use lookup::links;
use replies::{Refusal, Updated};
use trie::Entry;

// What the reading pass finds: the edition's root, the size of the new edition; what will stand behind the new entry, namely
// copies of the entries before the one that is replaced and what is shared, and how long the new chain is; how many branches
// the new path has; and whether an entry is replaced.
// `replaced` is a flag and no enum: it is one operand of the tests that read it, and chooses no step.
#[derive(Clone, Copy, Debug, PartialEq, Eq)]
pub struct Plan {
    pub root: u64,
    pub size: u64,
    pub tail: Tail,
    pub length: u64,
    pub branches: u64,
    pub replaced: bool,
}

// The key stands at `hit`, in the chain from `front` on: its entry is replaced.
fn replace(a: &[u64], z: Shape, root: u64, size: u64, hash: u64, front: u64, hit: u64) -> Plan
    requires { Lent z a.now }
    ensures { result ≡ replacing z (columns z a.now) root size hash front hit }
{
    let length = chains::length(a, z, front);
    let reach = grafts::extent(a, z, hash, true, root);
    Plan {
        root,
        size,
        tail: Tail {
            count: shares::less(length, chains::length(a, z, hit)),
            from: front,
            rest: links::kid(a, z, hit, 0),
        },
        length,
        branches: reach.branches,
        replaced: true,
    }
}

// The key is not there: an entry is added.
fn add(a: &[u64], z: Shape, root: u64, size: u64, hash: u64) -> Plan
    requires { Lent z a.now }
    ensures { result ≡ adding z (columns z a.now) root size hash }
{
    let reach = grafts::extent(a, z, hash, false, root);
    let rest = reach.behind;
    Plan {
        root,
        size: shares::more(size),
        tail: Tail {
            count: 0,
            from: 0,
            rest,
        },
        length: shares::more(chains::length(a, z, rest)),
        branches: reach.branches,
        replaced: false,
    }
}

// The reading pass below an edition that is held.
fn survey(a: &[u64], z: Shape, edition: u64, hash: u64, key: u64) -> Plan
    requires lent { Lent z a.now }
    requires in_slots { edition < z.slots }
    ensures { result ≡ plan_of z a.now edition hash key }
{
    let root = words::slot_word(a, z, edition, words::ROOT);
    let size = words::slot_word(a, z, edition, words::SIZE);
    let front = lookup::descend(a, z, root, hash);
    match lookup::find(a, z, front, hash, key) {
        Some(hit) => replace(a, z, root, size, hash, front, hit),
        None => add(a, z, root, size, hash),
    }
}

// The new edition in a slot. On a sound arena there are the cells that were counted; on any other a free chain may break
// off, and then what was written stands, but no slot is taken.
fn write(a: &mut [u64], z: Shape, entry: Entry, plan: Plan, slot: u64) -> Result<Updated, Refusal>
    requires lent { Lent z a.old }
    requires in_slots { slot < z.slots }
    ensures { leaves (update_answer result) a.new ≡ write_to z a.old entry plan slot }
{
    let leaf = chains::push_front(&mut *a, z, plan.length, entry, plan.tail);
    if leaf == 0 {
        return Err(Refusal::NoEntryCells);
    }
    let root = grafts::graft(
        &mut *a,
        z,
        entry.hash,
        leaf,
        plan.replaced,
        z.depths,
        plan.root,
    );
    let entries = shares::more(plan.tail.count);
    grants::hold_root(a, z, slot, root, plan.size, plan.branches, entries)
}

// A plan carried out, if there are a slot and the cells for it.
#[tactic(auto, using(grants::proofs::CaseLaws::room_in, crate::proofs::StepLaws::room_goes, crate::proofs::StepLaws::room_refuses))]
fn write_planned(a: &mut [u64], z: Shape, entry: Entry, plan: Plan) -> Result<Updated, Refusal>
    requires { Lent z a.old }
    ensures { leaves (update_answer result) a.new ≡ planned_to z a.old entry plan }
{
    let slot = grants::find_room(&*a, z, plan.branches, shares::more(plan.tail.count))?;
    write(a, z, entry, plan, slot)
}

// Insert and change differ in one thing: a change wants the key to be there. `present` is read in this one test alone.
fn wants(present: bool, plan: Plan) -> bool
    ensures { result ≡ wanted present plan }
{
    if present { plan.replaced } else { true }
}

fn write_held(
    a: &mut [u64],
    z: Shape,
    edition: u64,
    entry: Entry,
    present: bool,
) -> Result<Updated, Refusal>
    requires lent { Lent z a.old }
    requires is_held { held_slot z a.old edition ≡ true }
    ensures { leaves (update_answer result) a.new ≡ write_in z a.old edition entry present }
{
    let found = survey(&*a, z, edition, entry.hash, entry.key);
    if wants(present, found) {
        write_planned(a, z, entry, found)
    } else {
        Err(Refusal::Absent)
    }
}

fn write_edition(
    a: &mut [u64],
    z: Shape,
    edition: u64,
    entry: Entry,
    present: bool,
) -> Result<Updated, Refusal>
    requires { Lent z a.old }
    ensures { leaves (update_answer result) a.new ≡ write_in z a.old edition entry present }
{
    if slots::is_held(&*a, z, edition) {
        write_held(a, z, edition, entry, present)
    } else {
        Err(Refusal::NoSuchEdition)
    }
}

// An edition with an entry put in it, in the lowest free slot.
pub fn insert(a: &mut [u64], z: Shape, edition: u64, entry: Entry) -> Result<Updated, Refusal>
    requires { Lent z a.old }
    ensures { leaves (update_answer result) a.new ≡ insert_in z a.old edition entry }
{
    write_edition(a, z, edition, entry, false)
}

// An edition with another value for a key that it has, in the lowest free slot.
pub fn change(a: &mut [u64], z: Shape, edition: u64, entry: Entry) -> Result<Updated, Refusal>
    requires { Lent z a.old }
    ensures { leaves (update_answer result) a.new ≡ change_in z a.old edition entry }
{
    write_edition(a, z, edition, entry, true)
}
