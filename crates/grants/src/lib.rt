//! Room for an update: the lowest free slot, and as many free cells of each kind as the update takes; and the update's end, where
//! the slot holds the new root. A layer of the shelf, below insert, change and remove, which differ in what they write between
//! the two. The call that they have in common, its tests in their order, is in specs/Rooms.antt, and what such a call promises in
//! specs/Terms.antt.

#![tactic(auto)]

ghost use Rattle.std.specs.Prelude.{◌≡◌, ◌<◌};
ghost use Rattle.layout.specs.Layout.{number_of_kind, Lent};
ghost use Rattle.cells.specs.Mirrors.{wrote};
ghost use Rattle.replies.specs.Answers.{update_answer};
ghost use Rattle.replies.specs.Outcomes.{leaves};
ghost use Rattle.grants.specs.Rooms.{free_cell_count, room_of, held_to, hold_to};

use cells::{shares, slots};
use layout::{Kind, Shape, words};
use replies::{Refusal, Updated};

// How many cells of a kind are free: those that are not in use.
#[tactic(auto, unfolding(crate::specs::Rooms::free_cell_count))]
fn free_cells(a: &[u64], z: Shape, kind: Kind) -> u64
    requires { Lent z a.now }
    ensures { result ≡ free_cell_count z a.now (number_of_kind kind) }
{
    shares::less(
        words::cells_of(z, kind),
        words::kind_word(a, z, words::IN_USE, kind),
    )
}

// The lowest free slot, where so many cells of each kind are free, or why there is no room.
#[tactic(auto, unfolding(crate::specs::Rooms::room_of, crate::specs::Rooms::enough))]
pub fn find_room(a: &[u64], z: Shape, branches: u64, entries: u64) -> Result<u64, Refusal>
    requires { Lent z a.now }
    ensures { result ≡ room_of z a.now branches entries }
{
    let slot = slots::lowest_free(a, z).ok_or(Refusal::NoSlot)?;
    if free_cells(a, z, Kind::Branch) < branches {
        return Err(Refusal::NoBranchCells);
    }
    if free_cells(a, z, Kind::Entry) < entries {
        return Err(Refusal::NoEntryCells);
    }
    Ok(slot)
}

// A root in a slot, and the answer.
pub fn hold_edition(
    a: &mut [u64],
    z: Shape,
    slot: u64,
    root: u64,
    size: u64,
    branches: u64,
    entries: u64,
) -> Result<Updated, Refusal>
    requires lent { Lent z a.old }
    requires in_slots { slot < z.slots }
    ensures { leaves (update_answer result) a.new ≡ held_to z slot size branches entries root a.old }
{
    slots::hold(&mut *a, z, slot, root, size);
    Ok(Updated {
        edition: slot,
        branches,
        entries,
    })
}

// The same with the root that was written, which is 0 where no branch cell could be taken; then no slot is taken either.
#[tactic(auto, unfolding(crate::specs::Rooms::hold_to, replies::specs::Outcomes::on_wrote))]
pub fn hold_root(
    a: &mut [u64],
    z: Shape,
    slot: u64,
    root: u64,
    size: u64,
    branches: u64,
    entries: u64,
) -> Result<Updated, Refusal>
    requires lent { Lent z a.old }
    requires in_slots { slot < z.slots }
    ensures { leaves (update_answer result) a.new ≡ hold_to z slot size branches entries (wrote root a.old) }
{
    if root == 0 {
        return Err(Refusal::NoBranchCells);
    }
    hold_edition(a, z, slot, root, size, branches, entries)
}
