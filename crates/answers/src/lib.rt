//! Reads the stored answers, line by line: calls that were made on rpds 1.2.1, with what it answered. How they are
//! written is said where they are made, in oracle/README.md. A layer of the programs that replay them, beside the shelf.
//!
//! A caller may rely on this of any bytes: `read_line` reads the line that `line_at` of specs/Lines.antt says, and the
//! next line begins behind it and not behind the text, so that a loop over the lines ends.

#![tactic(auto)]

ghost use Rattle.std.specs.Prelude.{◌≡◌, ◌≤◌, ◌<◌, length, IfSome};
ghost use Rattle.answers.specs.Lines.{digit_of, broken_of, kept_of, closed_of, longer_of, next_of, read_of, start, bare_of, behind_of, newline_of, newline_from, line_at};

// The numbers of a line: a call has at most four arguments and four numbers in its answer.
const MOST: usize = 8;

// A line: its letter, its numbers in their order, and where the next line begins. An array with its count: no memory is asked
// for while a line is read. The letter 0 and no `Option` where something is no number: `line_at` of specs/Lines says so.
#[derive(Clone, Copy, Debug, PartialEq, Eq)]
pub struct Line {
    pub letter: u8,
    pub count: usize,
    pub numbers: [u64; 8],
    pub next: usize,
}

// The numbers of a line as far as it was read: those that have ended, and the one that may have further digits. `wrong` is a
// flag and no `Result`: `broken_of` and `made_of` of specs/Lines, which say what a line means, have it as a field.
#[derive(Clone, Copy, Debug, PartialEq, Eq)]
struct Numbers {
    count: usize,
    values: [u64; 8],
    last: Option<u64>,
    wrong: bool,
}

// The value of a hexadecimal digit.
#[tactic(auto, unfolding(crate::specs::Lines::digit_of))]
fn digit(b: u8) -> Option<u64>
    ensures answers { result ≡ digit_of b }
    ensures below_16 { IfSome result (λ d. d < 16) }
{
    match b {
        b'0'..=b'9' => Some((b - b'0') as u64),
        b'a'..=b'f' => Some((b - b'a') as u64 + 10),
        _ => None,
    }
}

impl Numbers {
    fn new() -> Self
        ensures { result ≡ start }
    {
        Numbers {
            count: 0,
            values: [0; 8],
            last: None,
            wrong: false,
        }
    }

    fn broken(mut self) -> Self
        ensures { result ≡ broken_of self }
    {
        self.wrong = true;
        self
    }

    // The number that has begun is the next of the line's.
    #[tactic(auto, unfolding(crate::specs::Lines::kept_of))]
    fn kept(mut self, last: u64) -> Self
        ensures { result ≡ kept_of self last }
    {
        let at = self.count;
        if MOST <= at {
            return self.broken();
        }
        self.values[at] = last;
        self.count = at + 1;
        self.last = None;
        self
    }

    fn closed(self) -> Self
        ensures { result ≡ closed_of self }
    {
        match self.last {
            Some(last) => self.kept(last),
            None => self,
        }
    }

    #[tactic(auto, unfolding(crate::specs::Lines::longer_of))]
    fn longer(mut self, d: u64) -> Self
        requires { d < 16 }
        ensures { result ≡ longer_of self d }
    {
        let last = self.last.unwrap_or(0);
        if 1u64 << 60 <= last {
            return self.broken();
        }
        self.last = Some(last * 16 + d);
        self
    }

    #[tactic(auto, unfolding(crate::specs::Lines::next_of))]
    fn next(self, b: u8) -> Self
        ensures { result ≡ next_of self b }
    {
        if b == b' ' || b == b'=' {
            return self.closed();
        }
        match digit(b) {
            Some(d) => self.longer(d),
            None => self.broken(),
        }
    }
}

// The numbers in a part of a line.
#[tactic(auto, using(crate::proofs::ReadLaws::read_more, crate::proofs::ReadLaws::read_all))]
fn read_numbers(part: &[u8]) -> Numbers
    ensures { result ≡ closed_of (read_of start part.now) }
{
    let mut read = Numbers::new();
    for b in part {
        read = read.next(*b);
    }
    read.closed()
}

// Where the first newline stands, if there is one.
fn newline(text: &[u8]) -> Option<usize>
    ensures { result ≡ newline_of text.now }
{
    text.iter().position(|b| *b == b'\n')
}

// Where the first newline from a place on stands, or the end of the text.
fn find(text: &[u8], from: usize) -> usize
    requires { from ≤ length text.now }
    ensures answers { result ≡ newline_from text.now from }
    ensures not_before { from ≤ result }
    ensures in_text { result ≤ length text.now }
{
    match newline(&text[from..]) {
        Some(at) => from + at,
        None => text.len(),
    }
}

// Where the line behind one that ends at `end` begins.
#[tactic(auto, unfolding(crate::specs::Lines::behind_of))]
fn behind(text: &[u8], end: usize) -> usize
    requires { end ≤ length text.now }
    ensures answers { result ≡ behind_of text.now end }
    ensures not_before { end ≤ result }
    ensures in_text { result ≤ length text.now }
{
    if end < text.len() { end + 1 } else { end }
}

// A line without numbers.
fn bare(letter: u8, next: usize) -> Line
    ensures { result ≡ bare_of letter next }
{
    Line {
        letter,
        count: 0,
        numbers: [0; 8],
        next,
    }
}

// The line that begins at `at`, which is a place of the text.
pub fn read_line(text: &[u8], at: usize) -> Line
    requires { at < length text.now }
    ensures answers { result ≡ line_at text.now at }
    ensures goes_on { at < result.next }
    ensures in_text { result.next ≤ length text.now }
{
    let letter = text[at];
    let from = at + 1;
    let end = find(text, from);
    let next = behind(text, end);
    if letter == b'#' {
        return bare(letter, next);
    }
    let read = read_numbers(&text[from..end]);
    if read.wrong {
        return bare(0, next);
    }
    let numbers = read.values;
    Line {
        letter,
        count: read.count,
        numbers,
        next,
    }
}
