//! The calls that make an arena or an edition, where the header was seen to be right: format, a new edition, a share. A
//! layer of the shelf, whose public calls read the header first.

#![tactic(auto)]

ghost use Rattle.std.specs.Prelude.{◌≡◌, ◌<◌};
ghost use Rattle.layout.specs.Layout.{Lent};
ghost use Rattle.replies.specs.Answers.{number_answer};
ghost use Rattle.replies.specs.Outcomes.{leaves};
ghost use Rattle.makes.specs.Calls.{new_edition_in, held_shared, share_in};
ghost use Rattle.makes.specs.Terms.{Formats};

use cells::{shares, slots};
use layout::{Shape, header, words};
use replies::Refusal;

// Makes an arena of the words: all cells free, no edition held. Words beyond the total stay as they are.
#[tactic(auto, using(layout::proofs::HeaderLaws::shape_Allowed, crate::proofs::FormatLaws::formats), unfolding(crate::specs::Calls::format_in))]
pub fn format(
    a: &mut [u64],
    degree: u64,
    branches: u64,
    entries: u64,
    editions: u64,
) -> Result<(), Refusal>
    ensures { Formats a.old degree branches entries editions result a.new }
{
    let z = header::shape(degree, branches, entries, editions)?;
    if (a.len() as u64) < header::total(z) {
        return Err(Refusal::SliceTooShort);
    }
    layout::format::lay_out(a, z);
    Ok(())
}

// An edition without entries, in the lowest free slot.
#[tactic(auto, using(cells::proofs::SlotLaws::free_slot_in), unfolding(crate::specs::Calls::new_edition_in, crate::specs::Calls::new_to, replies::specs::Outcomes::on_slot))]
pub fn new_edition(a: &mut [u64], z: Shape) -> Result<u64, Refusal>
    requires { Lent z a.old }
    ensures { leaves (number_answer result) a.new ≡ new_edition_in z a.old }
{
    let s = slots::lowest_free(&*a, z).ok_or(Refusal::NoSlot)?;
    slots::hold(a, z, s, 0, 0);
    Ok(s)
}

#[tactic(auto, using(cells::proofs::SlotLaws::free_slot_in), unfolding(crate::specs::Calls::held_shared, crate::specs::Calls::share_to, replies::specs::Outcomes::on_slot))]
fn share_held(a: &mut [u64], z: Shape, edition: u64) -> Result<u64, Refusal>
    requires lent { Lent z a.old }
    requires in_slots { edition < z.slots }
    ensures { leaves (number_answer result) a.new ≡ held_shared z a.old edition }
{
    let s = slots::lowest_free(&*a, z).ok_or(Refusal::NoSlot)?;
    let root = words::slot_word(&*a, z, edition, words::ROOT);
    let size = words::slot_word(&*a, z, edition, words::SIZE);
    shares::share(&mut *a, z, root);
    slots::hold(a, z, s, root, size);
    Ok(s)
}

// An edition once more, in the lowest free slot.
#[tactic(auto, using(cells::proofs::SlotLaws::held_in), unfolding(crate::specs::Calls::share_in))]
pub fn share(a: &mut [u64], z: Shape, edition: u64) -> Result<u64, Refusal>
    requires { Lent z a.old }
    ensures { leaves (number_answer result) a.new ≡ share_in z a.old edition }
{
    if slots::is_held(&*a, z, edition) {
        share_held(a, z, edition)
    } else {
        Err(Refusal::NoSuchEdition)
    }
}
