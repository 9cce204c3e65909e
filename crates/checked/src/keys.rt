//! The keys that are inserted and removed, 61 of them or 23. Their hashes are spread over all 64 bits, but for one in sixteen:
//! these have the same one.

pub fn hash_of(key: u64) -> u64 {
    if key % 16 == 5 {
        return 0x7000000000000008;
    }
    let x = key % 64 * 0x0123456789abcdef;
    x ^ (x >> 29)
}

// How large the arena of a run is, and with it how many keys there are.
#[derive(Clone, Copy, Debug, PartialEq, Eq)]
pub enum Size {
    Large,
    Small,
}

fn within(n: u64, size: Size) -> u64 {
    match size {
        Size::Large => n % 61,
        Size::Small => n % 23,
    }
}

// The key of a turn, where it inserts and where it removes.
pub fn inserted(turn: u64, size: Size) -> u64 {
    within(turn, size)
}

pub fn removed(turn: u64, size: Size) -> u64 {
    within(turn % 64 * 7, size)
}
