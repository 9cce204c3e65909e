//! The iterator over an edition's entries. A layer of the shelf, for arenas whose header was seen to be right.
//!
//! The Rust's growing stack is a fixed array of places here, and the walk owns it. A caller may rely on this, for any words:
//! a walk visits no more cells than the arena has, so no damage can make it go on without end.

#![tactic(auto)]

pub mod steps;

ghost use Rattle.std.specs.Prelude.{◌≤◌};

// One place for each branch on a path, of which there are 64 at most, and one to spare.
pub const PLACES: usize = 65;

// A walk: the branches that wait, the cell that it looks at next, how many places of its stack are taken, and how many cells it may
// still visit.
#[derive(Clone, Copy)]
pub struct Walk {
    pub stack: [u64; PLACES],
    pub at: u64,
    pub depth: usize,
    pub left: u64,
    ghost in_stack: { depth ≤ 65 },
}
