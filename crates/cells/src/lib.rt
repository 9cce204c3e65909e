//! The writers of cells and slots, a layer of the shelf on `layout`: share and unshare a reference, take a free cell,
//! fill it, take a reference out of it, give it back; hold a slot and let it go, and find the lowest free one. Nothing
//! above writes a word of a cell or slot in any other way.
//!
//! A caller may rely on this: on any words each of them writes what its mirror in specs/Mirrors.antt says and stays
//! inside the arena, and on a sound arena each is a step that keeps counts, free chains and what every edition shows
//! (proofs/Meaning.antt).

#![tactic(auto)]

pub mod fill;
pub mod free;
pub mod shares;
pub mod slots;
