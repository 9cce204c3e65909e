//! Editions listed whole, one to a line.
use crate::answer;
use std::io;

// Room for the six entries of the largest edition.
const FULL: usize = 18;

fn say_entries(rt: &impl Print, words: &[u64]) -> io::Result<()> {
    let (entries, _) = words.as_chunks::<3>();
    for [hash, key, value] in entries {
        print!(rt; " ({hash:x}, {key}, {value})")?;
    }
    Ok(())
}

// How many entries the call answers, and the entries.
pub fn whole(rt: &impl Print, a: &[u64], edition: u64) -> io::Result<()> {
    let mut out = [0u64; FULL];
    let answer = shelf::list(a, edition, 0, &mut out);
    let n = answer.unwrap_or(0);
    answer::say_counted(rt, answer)?;
    if n <= 6 {
        say_entries(rt, &out[..3 * n as usize])?;
    }
    println!(rt;)
}

// The same, with the edition's number in front.
fn numbered(rt: &impl Print, a: &[u64], edition: u64) -> io::Result<()> {
    print!(rt; "    {edition}: entries")?;
    whole(rt, a, edition)
}

// The first so many editions.
pub fn first(rt: &impl Print, a: &[u64], editions: u64) -> io::Result<()> {
    for edition in 0..editions {
        numbered(rt, a, edition)?;
    }
    Ok(())
}
