//! An answer as one struct of four numbers, for callers in C and Rust: document 01's number, and up to three values, zeros where
//! there is none. A layer of the shelf, between the public calls and their exports. The definition that flattens an answer is
//! specs/Answers.antt of `replies`; specs/Flat.antt says how a call that answers the struct is stated.

#![tactic(auto)]

ghost use Rattle.std.specs.Prelude.{◌≡◌};
ghost use Rattle.replies.specs.Answers.{Answer, answer, refused, answered, no_values, one_value, truth_value, update_values, cell_values};
ghost use Rattle.flat.specs.Flat.{held};

use replies::{CellCounts, Refusal, Updated};

// What C sees of an answer.
#[repr(C)]
#[derive(Clone, Copy, Debug, PartialEq, Eq)]
pub struct Flat {
    pub number: u64,
    pub a: u64,
    pub b: u64,
    pub c: u64,
}

pub fn done(a: u64, b: u64, c: u64) -> Flat
    ensures { held result ≡ answer 0 a b c }
{
    Flat { number: 0, a, b, c }
}

pub fn of_refusal(why: Refusal) -> Flat
    ensures { held result ≡ refused why }
{
    Flat {
        number: why.number(),
        a: 0,
        b: 0,
        c: 0,
    }
}

// What a call gives where it is done, as three values.
pub trait Values {
    ghost values: { Self → Answer };

    fn flat(self) -> Flat
        ensures { held result ≡ values self };
}

impl Values for () {
    ghost values = { no_values };

    fn flat(self) -> Flat {
        done(0, 0, 0)
    }
}

impl Values for u64 {
    ghost values = { one_value };

    fn flat(self) -> Flat {
        done(self, 0, 0)
    }
}

// 1 for true, 0 for false.
impl Values for bool {
    ghost values = { truth_value };

    fn flat(self) -> Flat {
        done(self as u64, 0, 0)
    }
}

impl Values for Updated {
    ghost values = { update_values };

    fn flat(self) -> Flat {
        done(self.edition, self.branches, self.entries)
    }
}

impl Values for CellCounts {
    ghost values = { cell_values };

    fn flat(self) -> Flat {
        done(self.branches, self.entries, 0)
    }
}

pub fn of<T: Values>(answer: Result<T, Refusal>) -> Flat
    ensures { held result ≡ answered T.values answer }
{
    match answer {
        Ok(given) => given.flat(),
        Err(why) => of_refusal(why),
    }
}
