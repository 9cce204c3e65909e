//! What an edition is: document 01's trie as definitions, with a name on each cell, and the laws about it.
//!
//! This is the layer of the shelf that code is held to. It has no function of its own, and one type: the entry, which
//! definitions and code have in common. It stands on the definitions of `segments`, and the crates above prove that their
//! words show such a trie and that their calls do to it what these definitions say.
//!
//! Read specs/Trie.antt first, then specs/Cells.antt (what an update takes) and specs/Shelf.antt (document 01's table,
//! computed). A caller may rely on the laws of proofs/MapLaws.antt (get, listing and size after each update),
//! CellLaws.antt (which names are new and how many), EqualLaws.antt, RenameMaps.antt (names play no part),
//! BuiltLaws.antt and DegreeLaws.antt (what can be built is what is canonical).

#![tactic(auto)]

// An entry: two are of the same key only if hash and key both agree.
#[derive(Clone, Copy, Debug, PartialEq, Eq)]
pub struct Entry {
    pub hash: u64,
    pub key: u64,
    pub value: u64,
}
