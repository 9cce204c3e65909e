//! Columns of words and how often a number stands in one, a layer of the shelf below its arena.
//!
//! It has no function: what the crates above say of counts, slots and free chains is said with these definitions, and
//! proved with their laws. An arena is read as a few columns; a store is one place of one column changed, and a
//! reference count is a number of places that hold a reference.

#![tactic(auto)]
