//! The header, and where words lie.
ghost use Rattle.std.specs.Prelude.{◌≤◌};

// An enum of this crate's own: the decision uses nothing of the shelf, so that a fault of one is no fault of the other.
#[derive(Clone, Copy, Debug, PartialEq, Eq)]
pub enum Kind {
    Branch,
    Entry,
}

// The words of an arena, and what their header says of them, which is right.
#[derive(Clone, Copy)]
pub struct Arena<'a> {
    words: &'a [u64],
    pub degree: u64,
    pub bits: u64,
    pub depths: u64,
    pub slots: u64,
    branches: u64,
    entries: u64,
}

// A word; 0 where there is none.
pub fn at(words: &[u64], i: u64) -> u64 {
    words.get(i as usize).copied().unwrap_or(0)
}

pub fn put(words: &mut [u64], i: u64, word: u64) {
    if let Some(place) = words.get_mut(i as usize) {
        *place = word;
    }
}

// The bits of a segment and the depths of branches, at a degree that a trie may have.
fn row(degree: u64) -> Option<(u64, u64)> {
    match degree {
        2 => Some((1, 64)),
        4 => Some((2, 32)),
        8 => Some((3, 22)),
        16 => Some((4, 16)),
        32 => Some((5, 13)),
        64 => Some((6, 11)),
        _ => None,
    }
}

fn is_small(n: u64) -> bool {
    (1..=64).contains(&n)
}

// The words of a number of branch cells.
fn branch_words(cells: u64, degree: u64) -> u64
    ensures { result ≤ 4288 }
{
    cells % 65 * (3 + degree % 65)
}

// Branch cell i is 2i+2, entry cell i is 2i+3.
pub fn kind_of(r: u64) -> Kind {
    if r % 2 == 0 {
        Kind::Branch
    } else {
        Kind::Entry
    }
}

pub fn reference(kind: Kind, cell: u64) -> u64 {
    match kind {
        Kind::Branch => 2 * (cell % 64) + 2,
        Kind::Entry => 2 * (cell % 64) + 3,
    }
}

// Where a cell's number is kept: the branches first.
pub fn index(r: u64) -> u64 {
    let cell = (r / 2 + 63) % 64;
    match kind_of(r) {
        Kind::Branch => cell,
        Kind::Entry => 64 + cell,
    }
}

impl<'a> Arena<'a> {
    // The arena in some words, if their header is right.
    pub fn read(words: &'a [u64]) -> Option<Self> {
        let degree = at(words, 1);
        let (bits, depths) = row(degree)?;
        let arena = Arena {
            words,
            degree,
            bits,
            depths,
            slots: at(words, 4),
            branches: at(words, 2),
            entries: at(words, 3),
        };
        (arena.are_sizes_small() && arena.fits()).then_some(arena)
    }

    fn are_sizes_small(self) -> bool {
        is_small(self.branches) && is_small(self.entries) && is_small(self.slots)
    }

    fn at_branches(self) -> u64
        ensures { result ≤ 300 }
    {
        12 + 3 * (self.slots % 65)
    }

    fn at_entries(self) -> u64
        ensures { result ≤ 9000 }
    {
        self.at_branches() + branch_words(self.branches, self.degree)
    }

    fn fits(self) -> bool {
        let at_entries = self.at_entries();
        at(self.words, 0) == 1
            && at(self.words, 5) == 12
            && at(self.words, 6) == self.at_branches()
            && at(self.words, 7) == at_entries
            && at_entries + 6 * (self.entries % 65) <= self.words.len() as u64
    }

    // The front of a kind's free chain.
    pub fn free(self, kind: Kind) -> u64 {
        match kind {
            Kind::Branch => at(self.words, 8),
            Kind::Entry => at(self.words, 9),
        }
    }

    // How many cells of a kind are in use, as the header counts them.
    pub fn used(self, kind: Kind) -> u64 {
        match kind {
            Kind::Branch => at(self.words, 10),
            Kind::Entry => at(self.words, 11),
        }
    }

    pub fn slot_word(self, s: u64, place: u64) -> u64 {
        at(self.words, 12 + 3 * (s % 65) + place % 3)
    }

    pub fn cells(self, kind: Kind) -> u64 {
        match kind {
            Kind::Branch => self.branches,
            Kind::Entry => self.entries,
        }
    }

    // Whether a reference names a cell of its kind.
    pub fn is_cell(self, r: u64) -> bool {
        2 <= r && r / 2 <= self.cells(kind_of(r))
    }

    pub fn is_branch(self, r: u64) -> bool {
        kind_of(r) == Kind::Branch && self.is_cell(r)
    }

    pub fn is_entry(self, r: u64) -> bool {
        kind_of(r) == Kind::Entry && self.is_cell(r)
    }

    fn first_word(self, r: u64) -> u64
        ensures { result ≤ 20000 }
    {
        let cell = r / 2 + 64;
        match kind_of(r) {
            Kind::Branch => self.at_branches() + branch_words(cell, self.degree),
            Kind::Entry => self.at_entries() + 6 * (cell % 65),
        }
    }

    // Word `place` of the cell that `r` names.
    pub fn word(self, r: u64, place: u64) -> u64 {
        at(self.words, self.first_word(r) + place % 80)
    }

    // The words of a cell of a kind.
    pub fn width(self, kind: Kind) -> u64 {
        match kind {
            Kind::Branch => 3 + self.degree % 65,
            Kind::Entry => 6,
        }
    }
}
