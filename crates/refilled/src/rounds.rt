//! The rounds, at degrees 4, 16 and 64.
use crate::fill::Run;
use crate::kept::First;
use crate::{fill, kept};
use shown::answer;
use std::io;

fn say_run(rt: &impl Print, a: &[u64], run: Run) -> io::Result<()> {
    let ended = run.ended.map_or(0, |why| why.number());
    print!(rt;
        ": updates {}, absent {}, then no. {ended}",
        run.made, run.absent
    )?;
    answer::say_use(rt, "; in use", a)?;
    println!(rt;)
}

// An edition is kept, and the others are dropped: from the lowest on in odd rounds, from the highest down in even ones.
fn empty(rt: &impl Print, a: &mut [u64], slots: u64, kept: u64, round: u64) -> io::Result<()> {
    print!(rt; "    keeps edition {kept}:")?;
    let first = if round % 2 == 0 {
        First::Highest
    } else {
        First::Lowest
    };
    let freed = kept::alone(rt, a, slots, kept, first)?;
    print!(rt;
        "; drops {}, frees {} {}",
        freed.editions, freed.branches, freed.entries
    )?;
    answer::say_use(rt, "; in use", a)?;
    println!(rt;)
}

// A round on an edition, with keys from one on; `keep` says which of its editions is kept. Answers that edition and the next
// key.
fn round<F: Fn(Run) -> u64>(
    rt: &impl Print,
    a: &mut [u64],
    slots: u64,
    n: u64,
    before: Run,
    keep: F,
) -> io::Result<Run>
    requires { F.IsAlwaysCallable keep }
{
    print!(rt; "  round {n}")?;
    let run = fill::fill(a, before);
    say_run(rt, a, run)?;
    let kept = keep(run);
    empty(rt, a, slots, kept, n)?;
    Ok(Run::new(kept, run.key))
}

// Three rounds, the first on the empty edition: one keeps the last edition, one the edition that it began with, and one the
// tenth. Answers the edition that the last one keeps.
fn three(rt: &impl Print, a: &mut [u64], slots: u64) -> io::Result<u64> {
    let _ = shelf::new_edition(a);
    let first = round(rt, a, slots, 1, Run::new(0, 1), |run| run.edition)?;
    let second = round(rt, a, slots, 2, first, |run| run.first)?;
    let third = round(rt, a, slots, 3, second, |run| run.tenth)?;
    Ok(third.edition)
}

// The edition that is left is dropped too.
fn end(rt: &impl Print, a: &mut [u64], kept: u64) -> io::Result<()> {
    print!(rt; "  edition {kept}")?;
    answer::say_dropped(rt, shelf::drop(a, kept))?;
    answer::say_use(rt, "; in use", a)?;
    println!(rt;)
}

// The first round comes out as it did.
fn again(rt: &impl Print, a: &mut [u64]) -> io::Result<()> {
    let _ = shelf::new_edition(a);
    print!(rt; "  round 1 again")?;
    let run = fill::fill(a, Run::new(0, 1));
    say_run(rt, a, run)
}

fn say_degree(
    rt: &impl Print,
    degree: u64,
    branches: u64,
    entries: u64,
    slots: u64,
) -> io::Result<()> {
    println!(rt; "Degree {degree}, cells {branches} {entries}, slots {slots}")
}

fn at_degree(
    rt: &impl Print,
    a: &mut [u64],
    degree: u64,
    branches: u64,
    entries: u64,
    slots: u64,
) -> io::Result<()> {
    say_degree(rt, degree, branches, entries, slots)?;
    let _ = shelf::format(a, degree, branches, entries, slots);
    let kept = three(rt, a, slots)?;
    end(rt, a, kept)?;
    again(rt, a)
}

pub fn show(rt: &impl Print) -> io::Result<()> {
    let mut a = [0u64; 1684];
    for (degree, branches, entries, slots) in [
        (4, 100, 40, 50),
        (16, 44, 30, 46),
        (64, 22, 20, 26),
    ] {
        at_degree(rt, &mut a, degree, branches, entries, slots)?;
    }
    Ok(())
}
