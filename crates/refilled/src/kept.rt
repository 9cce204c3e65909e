//! All editions dropped but one, which lists as before.
use shelf::{CellCounts, Refusal};
use shown::{answer, lent};
use std::io;

// How many editions were dropped, and the cells that they freed.
#[derive(Clone, Copy, Debug, Default)]
pub struct Freed {
    pub editions: u64,
    pub branches: u64,
    pub entries: u64,
}

impl Freed {
    // And one more, if it was held.
    fn with(self, answer: Result<CellCounts, Refusal>) -> Self {
        let Ok(CellCounts { branches, entries }) = answer else {
            return self;
        };
        Freed {
            editions: self.editions.saturating_add(1),
            branches: self.branches.wrapping_add(branches),
            entries: self.entries.wrapping_add(entries),
        }
    }

    // Drops an edition unless it is the one that is kept.
    fn drop(self, a: &mut [u64], edition: u64, kept: u64) -> Self {
        if edition == kept {
            return self;
        }
        self.with(shelf::drop(a, edition))
    }
}

// The end at which the drops begin.
#[derive(Clone, Copy, Debug, PartialEq, Eq)]
pub enum First {
    Lowest,
    Highest,
}

// The editions of so many slots, all but one.
fn drop_others(a: &mut [u64], slots: u64, kept: u64, first: First) -> Freed {
    let mut freed = Freed::default();
    for i in 0..slots {
        let edition = match first {
            First::Lowest => i,
            First::Highest => slots - 1 - i,
        };
        freed = freed.drop(a, edition, kept);
    }
    freed
}

// The words of a listing as one number.
fn sum(words: &[u64]) -> u64 {
    let mut n = 0;
    for word in words {
        n = (n % 4294967296 * 31 + word % 4294967296) % 4294967296;
    }
    n
}

// No edition that is kept has more than 40 entries.
const FULL: usize = 120;

pub fn alone(
    rt: &impl Print,
    a: &mut [u64],
    slots: u64,
    kept: u64,
    first: First,
) -> io::Result<Freed> {
    let mut before = [0u64; FULL];
    let mut behind = [0u64; FULL];
    answer::say_counted(rt, shelf::list(a, kept, 0, &mut before))?;
    print!(rt; " entries, sum {}", sum(&before))?;
    let freed = drop_others(a, slots, kept, first);
    let _ = shelf::list(a, kept, 0, &mut behind);
    if lent::is_same(&before, &behind) {
        print!(rt; ", listed as before")?;
    } else {
        print!(rt; ", LISTED OTHERWISE")?;
    }
    Ok(freed)
}
