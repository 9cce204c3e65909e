//! Each cell by itself: what document 01 asks of an entry, of a free cell and of a branch's depth, and of the free chains.
//! A layer of the shelf, below check, for arenas whose header was seen to be right.
//!
//! A caller may rely on this, for any words: nothing is written, every loop runs over the cells of a kind or the words
//! of one cell, a walk along a free chain ends after as many cells as are free, and the search for a key that stands twice
//! ends after as many entries as the arena has.

#![tactic(auto)]

pub mod branches;
pub mod entries;
pub mod free;
