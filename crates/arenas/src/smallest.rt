//! The smallest arena at each degree: one branch cell, one entry cell and one slot.
ghost use Rattle.std.specs.Prelude.{◌≤◌, length};

use shown::{answer, lent};
use std::io;

// What every word holds before a call, so that a word that was written shows.
const MARK: u64 = 7;

fn format_all(rt: &impl Print, a: &mut [u64], degree: u64) -> io::Result<()> {
    print!(rt; " {}", a.len())?;
    let answer = shelf::format(a, degree, 1, 1, 1);
    print!(rt; " words answer {}", answer::number(answer))
}

fn format_first(rt: &impl Print, a: &mut [u64], n: usize, degree: u64) -> io::Result<()>
    requires { n ≤ length a.old }
{
    format_all(rt, &mut a[..n], degree)
}

// Whether the words from `n` on are what they were.
fn say_kept(rt: &impl Print, a: &[u64], n: usize) -> io::Result<()>
    requires { n ≤ length a.now }
{
    let rest = &a[n..];
    print!(rt; " ({}", rest.len())?;
    if rest.iter().all(|word| *word == MARK) {
        print!(rt; " still 7)")
    } else {
        print!(rt; " NOT ALL STILL 7)")
    }
}

// A slice that is one word short, which is to stay as it is; one that has just the total; and a longer one, where the
// words beyond the total are to stay.
fn around_total(rt: &impl Print, degree: u64) -> io::Result<()>
    requires { degree ≤ 64 }
{
    let total = 24 + degree as usize;
    let mut a = [MARK; 128];
    print!(rt; "  degree {degree}:")?;
    format_first(rt, &mut a, total - 1, degree)?;
    say_kept(rt, &a, 0)?;
    print!(rt; ",")?;
    format_first(rt, &mut a, total, degree)?;
    let mut b = [MARK; 128];
    print!(rt; ",")?;
    format_all(rt, &mut b, degree)?;
    say_kept(rt, &b, total)?;
    println!(rt;)
}

fn all_words(rt: &impl Print) -> io::Result<()> {
    println!(rt; "The smallest arena of all, 26 words at degree 2")?;
    let mut a = [MARK; 26];
    let _ = shelf::format(&mut a, 2, 1, 1, 1);
    lent::say_part(rt, "  header:", &a, 0, 12)?;
    lent::say_part(rt, "  slot:", &a, 12, 15)?;
    lent::say_part(rt, "  branch cell:", &a, 15, 20)?;
    lent::say_part(rt, "  entry cell:", &a, 20, 26)
}

pub fn show(rt: &impl Print) -> io::Result<()> {
    println!(rt; "Smallest arenas (all sizes 1, every word 7 before)")?;
    // No loop: `around_total` requires a degree of at most 64, which no proof found of an array's elements or of 1 << bits.
    around_total(rt, 2)?;
    around_total(rt, 4)?;
    around_total(rt, 8)?;
    around_total(rt, 16)?;
    around_total(rt, 32)?;
    around_total(rt, 64)?;
    all_words(rt)
}
