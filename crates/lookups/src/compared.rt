//! Each edition with each, and with slots where there is none.
use crate::stored;
use shelf::Refusal;
use std::io;

pub fn say(rt: &impl Print, answer: Result<bool, Refusal>) -> io::Result<()> {
    match answer {
        Ok(true) => print!(rt; " ="),
        Ok(false) => print!(rt; " ."),
        Err(why) => print!(rt; " {}", why.number()),
    }
}

fn row(rt: &impl Print, a: &[u64], first: u64) -> io::Result<()> {
    print!(rt; "  {first}:")?;
    for second in 0..=stored::EDITIONS {
        say(rt, shelf::equal(a, first, second))?;
    }
    println!(rt;)
}

pub fn show(rt: &impl Print, a: &[u64]) -> io::Result<()> {
    println!(rt; "Equal (=) or not (.), editions 0 to 9 with 0 to 9")?;
    for first in 0..=stored::EDITIONS {
        row(rt, a, first)?;
    }
    Ok(())
}
