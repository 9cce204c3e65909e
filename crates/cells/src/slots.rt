//! The slots that editions stand in.
ghost use Rattle.std.specs.Prelude.{◌≡◌, ◌<◌};
ghost use Rattle.layout.specs.Layout.{Lent};
ghost use Rattle.layout.specs.Columns.{set_slot_words};
ghost use Rattle.cells.specs.Slots.{held_slot, free_slot};

use layout::{Shape, words};

#[tactic(auto, unfolding(layout::specs::Columns::set_slot_words))]
fn set_slot(a: &mut [u64], z: Shape, s: u64, held: u64, root: u64, size: u64)
    requires lent { Lent z a.old }
    requires in_slots { s < z.slots }
    ensures { a.new ≡ set_slot_words z a.old s held root size }
{
    words::set_slot_word(&mut *a, z, s, words::HELD, held);
    words::set_slot_word(&mut *a, z, s, words::ROOT, root);
    words::set_slot_word(&mut *a, z, s, words::SIZE, size);
}

// An edition stands in the slot.
pub fn hold(a: &mut [u64], z: Shape, s: u64, root: u64, size: u64)
    requires lent { Lent z a.old }
    requires in_slots { s < z.slots }
    ensures { a.new ≡ set_slot_words z a.old s 1 root size }
{
    set_slot(a, z, s, 1, root, size);
}

// No edition stands in the slot any more.
pub fn let_go(a: &mut [u64], z: Shape, s: u64)
    requires lent { Lent z a.old }
    requires in_slots { s < z.slots }
    ensures { a.new ≡ set_slot_words z a.old s 0 0 0 }
{
    set_slot(a, z, s, 0, 0, 0);
}

// Whether there is such a slot and an edition stands in it: its first word is 1.
#[tactic(auto, unfolding(crate::specs::Slots::held_slot))]
pub fn is_held(a: &[u64], z: Shape, s: u64) -> bool
    requires { Lent z a.now }
    ensures { result ≡ held_slot z a.now s }
{
    s < z.slots && words::slot_word(a, z, s, words::HELD) == 1
}

// The lowest slot that is not held, by looking at the slots in order.
#[tactic(auto, using(crate::proofs::SlotLaws::free_start, crate::proofs::SlotLaws::free_here, crate::proofs::SlotLaws::free_next, crate::proofs::SlotLaws::free_none))]
pub fn lowest_free(a: &[u64], z: Shape) -> Option<u64>
    requires { Lent z a.now }
    ensures { result ≡ free_slot z a.now }
{
    for s in 0..z.slots {
        if words::slot_word(a, z, s, words::HELD) != 1 {
            return Some(s);
        }
    }
    None
}
