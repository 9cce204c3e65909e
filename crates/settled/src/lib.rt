//! What the editions settle: how many cells an edition shares with no other, and every word of a sound arena but the free
//! chains.
//!
//! This is a layer of the shelf, above what an arena means and below what is said of the public calls. It has no function of
//! its own. Read specs/Cost.antt and specs/Alike.antt; the theorems are `in_use` and `one_more` in proofs/CostLaws.antt,
//! `settled` in proofs/SettleLaws.antt, and `insert_same_names`, `remove_same_names` in proofs/NameLaws.antt.

#![tactic(auto)]
