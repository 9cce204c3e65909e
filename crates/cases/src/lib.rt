//! How a proof goes by cases: on a test, on whether two numbers are equal, and on which of two numbers is the lower.
//!
//! This is the lowest layer of the shelf, below all others: facts about numbers and tests that the library leaves to its
//! users. It has no function and no definition to be believed; a proof in any crate may rely on it.

#![tactic(auto)]
