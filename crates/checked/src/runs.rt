//! The runs at every degree, and at two on small arenas, with a check after each turn.
use crate::keys::Size;
use crate::run;
use crate::run::Run;
use shelf::CellCounts;
use std::io;

const WORDS: usize = 8192;

// As many as the branch cells and entry cells of any of the arenas, or more.
const WORK: usize = 600;

const TURNS: u64 = 480;

// The degree, the branch cells and the entry cells of each large arena.
const LARGE: [(u64, u64, u64); 6] = [
    (2, 400, 200),
    (4, 400, 200),
    (8, 300, 200),
    (16, 200, 200),
    (32, 150, 150),
    (64, 100, 150),
];

// How many words are not 0.
fn count_some(words: &[u64]) -> u64 {
    words.iter().filter(|word| **word != 0).count() as u64
}

// As many counts are not 0 as there are cells in use.
fn are_in_use(a: &[u64], work: &[u64]) -> bool {
    let Ok(CellCounts { branches, entries }) = shelf::in_use(a) else {
        return false;
    };
    count_some(work) == branches.wrapping_add(entries)
}

fn is_sound(a: &[u64]) -> bool {
    let mut work = [0u64; WORK];
    shelf::check(a, &mut work).is_ok() && are_in_use(a, &work)
}

// By both decisions where the arena is small.
fn is_right(a: &[u64], size: Size) -> bool {
    (size == Size::Large || reaches::is_sound(a)) && is_sound(a)
}

fn turns(a: &mut [u64], size: Size) -> Run {
    let mut run = Run::default();
    for turn in 0..TURNS {
        run = run::step(a, turn, size, run);
        run = run.checked(is_right(a, size));
    }
    run
}

fn say(rt: &impl Print, run: Run) -> io::Result<()> {
    print!(rt;
        ": updates {}, absent {}, no room {}",
        run.done, run.absent, run.full
    )?;
    println!(rt; "; sound {}, others {}", run.sound, run.others)
}

fn tell(rt: &impl Print, degree: u64, branches: u64, entries: u64, size: Size) -> io::Result<()> {
    let mut a = [0u64; WORDS];
    let _ = shelf::format(&mut a, degree, branches, entries, run::SLOTS);
    let _ = shelf::new_edition(&mut a);
    print!(rt; "  degree {degree}, cells {branches} {entries}")?;
    say(rt, turns(&mut a, size))
}

pub fn show(rt: &impl Print) -> io::Result<()> {
    println!(rt; "Checked after each of 480 turns (61 keys, 8 slots)")?;
    for (degree, branches, entries) in LARGE {
        tell(rt, degree, branches, entries, Size::Large)?;
    }
    println!(rt; "And by reachability too (23 keys)")?;
    tell(rt, 8, 64, 64, Size::Small)?;
    tell(rt, 64, 64, 64, Size::Small)
}
