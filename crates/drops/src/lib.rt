//! The call that lets an edition go, where the header was seen to be right: drop. A layer of the shelf, whose public calls
//! read the header first.

#![tactic(auto)]

ghost use Rattle.std.specs.Prelude.{◌≡◌, ◌<◌};
ghost use Rattle.layout.specs.Layout.{Lent};
ghost use Rattle.replies.specs.Answers.{cells_answer};
ghost use Rattle.replies.specs.Outcomes.{leaves};
ghost use Rattle.drops.specs.Calls.{free_words, free_in, drop_in};

use cells::{shares, slots};
use layout::{Kind, Shape, words};
use replies::{CellCounts, Refusal};

// The slot is emptied first, then its root is let go.
#[tactic(auto, using(crate::proofs::StepLaws::free_is, cells::proofs::KeptLaws::lent_same))]
fn free(a: &mut [u64], z: Shape, edition: u64)
    requires lent { Lent z a.old }
    requires in_slots { edition < z.slots }
    ensures { a.new ≡ free_words z a.old edition }
{
    let root = words::slot_word(&*a, z, edition, words::ROOT);
    slots::let_go(&mut *a, z, edition);
    releases::release(a, z, z.depths, root);
}

// Both numbers freed are what the counts of the cells in use fell by.
#[tactic(auto, using(cells::proofs::KeptLaws::lent_same), unfolding(crate::specs::Calls::free_in))]
fn drop_held(a: &mut [u64], z: Shape, edition: u64) -> Result<CellCounts, Refusal>
    requires lent { Lent z a.old }
    requires in_slots { edition < z.slots }
    ensures { leaves (cells_answer result) a.new ≡ free_in z a.old edition }
{
    let branches = words::kind_word(&*a, z, words::IN_USE, Kind::Branch);
    let entries = words::kind_word(&*a, z, words::IN_USE, Kind::Entry);
    free(&mut *a, z, edition);
    Ok(CellCounts {
        branches: shares::less(
            branches,
            words::kind_word(&*a, z, words::IN_USE, Kind::Branch),
        ),
        entries: shares::less(
            entries,
            words::kind_word(&*a, z, words::IN_USE, Kind::Entry),
        ),
    })
}

// An edition is let go, with every cell that no other edition reaches.
#[tactic(auto, using(cells::proofs::SlotLaws::held_in), unfolding(crate::specs::Calls::drop_in))]
pub fn drop(a: &mut [u64], z: Shape, edition: u64) -> Result<CellCounts, Refusal>
    requires { Lent z a.old }
    ensures { leaves (cells_answer result) a.new ≡ drop_in z a.old edition }
{
    if slots::is_held(&*a, z, edition) {
        drop_held(a, z, edition)
    } else {
        Err(Refusal::NoSuchEdition)
    }
}
