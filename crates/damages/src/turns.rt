//! Every word, every value, both decisions.
use crate::small;
use crate::small::Arena;
use shelf::Refusal;
use shown::{answer, lent};
use std::io;

const WORDS: usize = 1700;

// More work words than any of the arenas has cells.
const WORK: usize = 80;

// How many arenas were tried, how many check called sound, and how often the two decisions differed.
#[derive(Clone, Copy, Debug, Default)]
pub struct Tried {
    pub arenas: u64,
    pub sound: u64,
    pub differ: u64,
}

impl Tried {
    // And one more, with both answers.
    fn with(mut self, check: Result<(), Refusal>, plain: Result<(), Refusal>) -> Self {
        self.arenas = self.arenas.saturating_add(1);
        if check.is_ok() {
            self.sound = self.sound.saturating_add(1);
        }
        if check != plain {
            self.differ = self.differ.saturating_add(1);
        }
        self
    }
}

// What check answers.
fn check(a: &[u64]) -> Result<(), Refusal> {
    let mut work = [0u64; WORK];
    shelf::check(a, &mut work)
}

// What it has to answer by the second decision.
fn plainly(a: &[u64]) -> Result<(), Refusal> {
    if reaches::is_sound(a) {
        Ok(())
    } else {
        Err(Refusal::Damaged)
    }
}

// The values that a word is changed to.
fn values(word: u64) -> [u64; 10] {
    [
        0,
        1,
        2,
        3,
        word ^ 1,
        word ^ 2,
        word ^ 4,
        word ^ 0x8000000000000000,
        u64::MAX,
        word ^ 0x10000,
    ]
}

// One word changed to one value, and put back.
fn try_value(a: &mut [u64], at: usize, other: u64, tried: Tried) -> Tried {
    let word = lent::word(a, at);
    if other == word {
        return tried;
    }
    lent::put(a, at, other);
    let now = tried.with(check(a), plainly(a));
    lent::put(a, at, word);
    now
}

fn try_word(a: &mut [u64], at: usize, before: Tried) -> Tried {
    let mut tried = before;
    for other in values(lent::word(a, at)) {
        tried = try_value(a, at, other, tried);
    }
    tried
}

fn try_words(a: &mut [u64], words: usize) -> Tried {
    let mut tried = Tried::default();
    for at in 0..words {
        tried = try_word(a, at, tried);
    }
    tried
}

fn say(rt: &impl Print, check: Result<(), Refusal>, plain: Result<(), Refusal>) -> io::Result<()> {
    if check.is_ok() && plain.is_ok() {
        println!(rt; ", sound")
    } else {
        println!(rt; ", NOT SOUND")
    }
}

// The arena itself: there are cells in use and free cells of both kinds.
fn say_small(rt: &impl Print, a: &[u64], arena: Arena) -> io::Result<()> {
    print!(rt;
        "  degree {}: cells {} {}",
        arena.degree,
        arena.branches,
        small::ENTRIES
    )?;
    answer::say_use(rt, ", in use", a)?;
    say(rt, check(a), plainly(a))
}

fn tell(rt: &impl Print, arena: Arena) -> io::Result<()> {
    let mut a = [0u64; WORDS];
    small::make(&mut a, arena);
    say_small(rt, &a, arena)?;
    let tried = try_words(&mut a, arena.words);
    print!(rt;
        "    each of {} words changed: {} arenas",
        arena.words, tried.arenas
    )?;
    println!(rt;
        ", of which sound {}, differences {}",
        tried.sound, tried.differ
    )
}

pub fn show(rt: &impl Print) -> io::Result<()> {
    println!(rt; "Each word changed in turn (check, and a decision by reachability)")?;
    for arena in small::ALL {
        tell(rt, arena)?;
    }
    Ok(())
}
