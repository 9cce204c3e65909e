//! The entries of the shelf table, A to E.

pub use trie::Entry;

// The hash of D and E.
pub const CHAIN: u64 = 0x7000000000000008;

pub fn an_entry(hash: u64, key: u64, value: u64) -> Entry {
    Entry { hash, key, value }
}

// By the step of the table that inserts it; the sixth is D with another value.
pub fn of_step(n: u64) -> Entry {
    match n {
        1 => an_entry(0x26, 1, 10),
        2 => an_entry(0x16, 2, 20),
        3 => an_entry(0x42, 3, 30),
        4 => an_entry(CHAIN, 4, 40),
        5 => an_entry(CHAIN, 5, 50),
        _ => an_entry(CHAIN, 4, 41),
    }
}
