//! Each edition listed whole, and K5 from every place with every room.
ghost use Rattle.std.specs.Prelude.{◌≤◌};

use crate::stored;
use shown::{answer, listed};
use std::io;

// What stands in the output before a call.
const MARK: u64 = 99;

// Room for the five entries of the largest edition, and two words more.
const FULL: usize = 17;

fn word(words: &[u64], i: usize) -> u64 {
    words.get(i).copied().unwrap_or(MARK)
}

fn whole(rt: &impl Print, a: &[u64], edition: u64) -> io::Result<()> {
    print!(rt; "  edition {edition}: answers")?;
    listed::whole(rt, a, edition)
}

// Whether the output holds the words of the listing from a place on, and the mark in all the others.
fn is_part(all: &[u64], place: usize, n: u64, out: &[u64]) -> bool
    requires { place ≤ 6 }
{
    for (i, found) in out.iter().enumerate() {
        let want = if i as u64 / 3 < n {
            word(all, 3 * place + i)
        } else {
            MARK
        };
        if *found != want {
            return false;
        }
    }
    true
}

// What a listing from a place answers with the first `room` words of the output, and whether all its words are right.
fn from_place(rt: &impl Print, a: &[u64], all: &[u64], place: usize, room: usize) -> io::Result<()>
    requires { (place ≤ 6) × (room ≤ 17) }
{
    let mut out = [MARK; FULL];
    let answer = shelf::list(a, 0, place as u64, &mut out[..room]);
    let n = answer.unwrap_or(0);
    answer::say_counted(rt, answer)?;
    if !is_part(all, place, n, &out) {
        print!(rt; " WRONG")?;
    }
    Ok(())
}

fn every_room(rt: &impl Print, a: &[u64], all: &[u64], place: usize) -> io::Result<()>
    requires { place ≤ 6 }
{
    print!(rt; "  from {place}:")?;
    for room in 0..=FULL {
        from_place(rt, a, all, place, room)?;
    }
    println!(rt;)
}

pub fn show(rt: &impl Print, a: &[u64]) -> io::Result<()> {
    println!(rt; "Listed whole")?;
    for edition in 0..=stored::EDITIONS {
        whole(rt, a, edition)?;
    }
    println!(rt; "K5 from each place, with room for 0 to 17 words")?;
    let mut all = [MARK; FULL];
    let _ = shelf::list(a, 0, 0, &mut all);
    for place in 0..=6 {
        every_room(rt, a, &all, place)?;
    }
    Ok(())
}
