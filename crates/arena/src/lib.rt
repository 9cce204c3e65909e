//! What an arena means, the layer of the shelf between words and tries: which trie an edition shows, and when an arena
//! is sound. Document 01's paragraph SOUND.
//!
//! It has no function: it stands on the columns of `layout` and the tries of `trie`, and the crates above prove that
//! their calls keep an arena sound.
//!
//! Read specs/Shows.antt (what a reference and an edition show), then specs/Sound.antt, and specs/Holds.antt, which the
//! calls' contracts speak with. A proof works with the local form (specs/Local.antt), in which counts are over the whole
//! arena and some references may be in hand; that the two are equivalent is in proofs/Equivalent.antt.

#![tactic(auto)]
