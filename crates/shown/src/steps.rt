//! The steps of the shelf table that insert, each on the edition of the step before it, in an arena whose edition 0 is empty.
use crate::entries;
use shelf::{Refusal, Updated};

// Step n of the table, on the edition that step n - 1 made.
pub fn step(a: &mut [u64], n: u64) -> Result<Updated, Refusal> {
    let e = entries::of_step(n);
    let edition = n.saturating_sub(1);
    shelf::insert(a, edition, e.hash, e.key, e.value)
}

// The empty edition, and the steps before step n.
pub fn before(a: &mut [u64], n: u64) {
    let _ = shelf::new_edition(a);
    for k in 1..n {
        let _ = step(a, k);
    }
}
