//! The answers on editions at one degree: that each line is what its letter asks for, that the crate lists in the order of
//! our segments, and that each call, made on the shelf, answers the same and lists the same entries.
use answers::Line;
use segments::Index;

// What was read so far. `listing` is how many entries of a listing the next lines have still to show, `last` the hash of
// the one before them, if there is one, and `place` where the next stands in what the shelf has listed.
#[derive(Clone, Copy, Debug, PartialEq, Eq)]
pub struct Tally {
    degree: u64,
    pub entries: u64,
    listing: u64,
    last: Option<u64>,
    place: usize,
}

// How many arguments a call has, if the letter is a call's.
fn arguments(letter: u8) -> Option<usize> {
    match letter {
        b'n' | b'u' => Some(0),
        b's' | b'z' | b'd' => Some(1),
        b'e' => Some(2),
        b'g' | b'l' | b'r' => Some(3),
        b'f' | b'i' | b'c' => Some(4),
        _ => None,
    }
}

fn segment(hash: u64, depth: u64, degree: u64) -> u64 {
    match segments::index_from_hash(hash, depth, degree) {
        Index::At(segment) => segment,
        Index::Exhausted | Index::NoSuchDegree => 0,
    }
}

// Whether an entry under one hash may stand before an entry under another: the segment is the lower one at the first
// depth at which they differ.
fn in_order(before: u64, behind: u64, degree: u64) -> bool {
    for depth in 0..64 {
        let a = segment(before, depth, degree);
        let b = segment(behind, depth, degree);
        if a != b {
            return a < b;
        }
    }
    true
}

// Where the next entry of a listing stands. No listing has more than 1,024 words.
fn behind(place: usize) -> usize {
    if place < 1024 { place + 3 } else { place }
}

impl Tally {
    pub fn new(degree: u64) -> Self {
        Tally {
            degree,
            entries: 0,
            listing: 0,
            last: None,
            place: 0,
        }
    }

    // Whether a call has all its numbers, which are its arguments and the four of its answer, and the listing before it has
    // shown all its entries.
    fn is_whole(&self, arguments: usize, length: usize) -> bool {
        self.listing == 0 && length.checked_sub(4) == Some(arguments)
    }

    // A listing that is not refused shows as many entries as it says.
    fn list(&mut self, number: u64, entries: u64) {
        self.listing = if number == 0 { entries } else { 0 };
        self.last = None;
        self.place = 0;
    }

    // An entry of a listing: in order, and what the shelf has listed there.
    fn entry(&mut self, out: &[u64], line: &Line) -> bool {
        let hash = line.numbers[0];
        let ordered = match self.last {
            Some(before) => in_order(before, hash, self.degree),
            None => true,
        };
        let listed = stored_calls::is_entry(out, self.place, line.numbers);
        self.entries = self.entries.saturating_add(1);
        self.last = Some(hash);
        self.place = behind(self.place);
        let Some(left) = self.listing.checked_sub(1) else {
            return false;
        };
        self.listing = left;
        ordered && listed && line.count == 3
    }

    // A call: its form, and its answer. Every arena of a file has the file's degree.
    fn call(&mut self, a: &mut [u64], out: &mut [u64], line: &Line) -> bool {
        let Some(arguments) = arguments(line.letter) else {
            return false;
        };
        let numbers = line.numbers;
        let formed = self.is_whole(arguments, line.count)
            && (line.letter != b'f' || numbers[0] == self.degree);
        if line.letter == b'l' {
            self.list(numbers[3], numbers[4]);
        }
        let reply = stored_calls::make(a, out, line.letter, numbers);
        formed && stored_calls::is_answer(reply, numbers, arguments)
    }

    // Replays a line on an arena, with an output for the listings, and answers whether it came out right.
    pub fn line(&mut self, a: &mut [u64], out: &mut [u64], line: &Line) -> bool {
        match line.letter {
            b'#' | b't' => true,
            b'+' => self.entry(out, line),
            _ => self.call(a, out, line),
        }
    }
}
