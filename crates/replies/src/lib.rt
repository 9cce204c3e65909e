//! What a call answers: why it is refused, with document 01's numbers, and what it gives where it is done. A layer of the
//! shelf, below every call. An answer's number and values are in specs/Answers.antt, what a call leaves in
//! specs/Outcomes.antt, and proofs/Tables.antt says how "given exactly when" is stated of a call.

#![tactic(auto)]

ghost use Rattle.std.specs.Prelude.{◌≡◌};
ghost use Rattle.replies.specs.Answers.{number_of, unfit};

use layout::Misfit;

// Why a call is refused, with document 01's words for its numbers 1 to 12.
#[derive(Clone, Copy, Debug, PartialEq, Eq)]
pub enum Refusal {
    BadDegree,
    BadSizes,
    SliceTooShort,
    Damaged,
    NoSuchEdition,
    Absent,
    NoSlot,
    NoBranchCells,
    NoEntryCells,
    OutputTooShort,
    BeyondTheEnd,
    WorkTooShort,
}

impl Refusal {
    // Document 01's number.
    pub fn number(self) -> u64
        ensures { result ≡ number_of self }
    {
        match self {
            Refusal::BadDegree => 1,
            Refusal::BadSizes => 2,
            Refusal::SliceTooShort => 3,
            Refusal::Damaged => 4,
            Refusal::NoSuchEdition => 5,
            Refusal::Absent => 6,
            Refusal::NoSlot => 7,
            Refusal::NoBranchCells => 8,
            Refusal::NoEntryCells => 9,
            Refusal::OutputTooShort => 10,
            Refusal::BeyondTheEnd => 11,
            Refusal::WorkTooShort => 12,
        }
    }
}

impl From<Misfit> for Refusal {
    ghost from_gives = { λ why refusal. refusal ≡ unfit why };

    fn from(why: Misfit) -> Refusal {
        match why {
            Misfit::BadDegree => Refusal::BadDegree,
            Misfit::BadSizes => Refusal::BadSizes,
        }
    }
}

// What an update answers: the slot that the new edition stands in, and how many cells of each kind it took.
#[derive(Clone, Copy, Debug, PartialEq, Eq)]
pub struct Updated {
    pub edition: u64,
    pub branches: u64,
    pub entries: u64,
}

// How many cells of each kind: those in use, or those that a drop freed.
#[derive(Clone, Copy, Debug, PartialEq, Eq)]
pub struct CellCounts {
    pub branches: u64,
    pub entries: u64,
}
