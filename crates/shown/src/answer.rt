//! An answer as document 01's number, 0 where the call is done; or as text, its values or "no." with the number.
use shelf::{CellCounts, Refusal, Updated};
use std::{fmt, io};

// Document 01's number of an answer.
pub fn number<T: Copy>(answer: Result<T, Refusal>) -> u64 {
    match answer {
        Ok(_) => 0,
        Err(why) => why.number(),
    }
}

// Whether a call answers 4.
pub fn is_damaged<T: Copy>(answer: Result<T, Refusal>) -> bool {
    matches!(answer, Err(Refusal::Damaged))
}

// A refusal as text.
#[derive(Clone, Copy, Debug, PartialEq, Eq)]
pub struct No(pub Refusal);

impl fmt::Display for No {
    fn fmt<W: fmt::Write>(&self, f: &mut fmt::Formatter<W>) -> fmt::Result {
        write!(f, "no. {}", self.0.number())
    }
}

// Which slot an edition was put in.
pub fn say_made(rt: &impl Print, label: &str, answer: Result<u64, Refusal>) -> io::Result<()> {
    print!(rt; "{label}")?;
    match answer {
        Ok(slot) => print!(rt; " slot {slot}"),
        Err(why) => print!(rt; " {}", No(why)),
    }
}

pub fn say_counted(rt: &impl Print, answer: Result<u64, Refusal>) -> io::Result<()> {
    match answer {
        Ok(n) => print!(rt; " {n}"),
        Err(why) => print!(rt; " {}", No(why)),
    }
}

// The branch cells and the entry cells in use.
pub fn say_use(rt: &impl Print, label: &str, a: &[u64]) -> io::Result<()> {
    print!(rt; "{label}")?;
    match shelf::in_use(a) {
        Ok(CellCounts { branches, entries }) => print!(rt; " {branches} {entries}"),
        Err(why) => print!(rt; " {}", No(why)),
    }
}

// The edition that an update made and the cells that it took.
pub fn say_updated(rt: &impl Print, answer: Result<Updated, Refusal>) -> io::Result<()> {
    match answer {
        Ok(made) => print!(rt;
            ": edition {} takes {} {}",
            made.edition, made.branches, made.entries
        ),
        Err(why) => print!(rt; ": {}", No(why)),
    }
}

// The cells that a drop freed.
pub fn say_dropped(rt: &impl Print, answer: Result<CellCounts, Refusal>) -> io::Result<()> {
    match answer {
        Ok(CellCounts { branches, entries }) => print!(rt; " frees {branches} {entries}"),
        Err(why) => print!(rt; " {}", No(why)),
    }
}

// Whether two editions have the same entries.
pub fn say_compared(
    rt: &impl Print,
    a: &[u64],
    label: &str,
    first: u64,
    second: u64,
) -> io::Result<()> {
    print!(rt; "{label}")?;
    match shelf::equal(a, first, second) {
        Ok(true) => println!(rt; " equal"),
        Ok(false) => println!(rt; " different"),
        Err(why) => println!(rt; " {}", No(why)),
    }
}
