//! Calls on an arena with a wrong header, and on one that is cut short: each answers 4. They have another fault too, but 4
//! comes first.
use crate::{answer, lent};
use std::io;

// Updates and drops, of no such edition: how many of the four calls answer 4.
fn fours(a: &mut [u64]) -> u64 {
    let damaged = [
        answer::is_damaged(shelf::insert(&mut *a, u64::MAX, 0x26, 1, 10)),
        answer::is_damaged(shelf::change(&mut *a, u64::MAX, 0x26, 1, 10)),
        answer::is_damaged(shelf::remove(&mut *a, u64::MAX, 0x26, 1)),
        answer::is_damaged(shelf::drop(&mut *a, u64::MAX)),
    ];
    count(damaged)
}

// How many of four calls answer 4.
pub fn count(damaged: [bool; 4]) -> u64 {
    damaged.iter().filter(|four| **four).count() as u64
}

// The calls with each of words 0 to 7 made wrong: how often they answer 4. A word is put back by what it was changed by, so that
// one that a call wrote to in between still shows.
pub fn wrong_words<W: Fn(u64) -> u64, F: Fn(&mut [u64]) -> u64>(
    a: &mut [u64],
    wrong: W,
    calls: F,
) -> u64
    requires wrong_is_callable { W.IsAlwaysCallable wrong }
    requires calls_is_callable { F.IsAlwaysCallable calls }
{
    let mut fours = 0u64;
    for at in 0..8 {
        let before = lent::word(a, at);
        let damaged = wrong(before);
        lent::put(a, at, damaged);
        fours = fours.saturating_add(calls(&mut *a));
        let left = lent::word(a, at);
        lent::put(a, at, left.wrapping_sub(damaged).wrapping_add(before));
    }
    fours
}

// The calls on no word, on one word less than a header, and on one less than the arena: how often they answer 4.
pub fn cut_short<F: Fn(&mut [u64]) -> u64>(a: &mut [u64], calls: F) -> u64
    requires { F.IsAlwaysCallable calls }
{
    let mut fours = 0u64;
    for n in [0, 11, a.len().saturating_sub(1)] {
        if let Some(part) = a.get_mut(..n) {
            fours = fours.saturating_add(calls(part));
        }
    }
    fours
}

// The slice has just the words of the arena, whose words 0 to 7 are never 77.
pub fn say(rt: &impl Print, a: &mut [u64]) -> io::Result<()> {
    print!(rt;
        "  words 0 to 7 wrong: 4 from {} of 32 calls; cut short: 4 from {} of 12 calls",
        wrong_words(a, |_| 77, fours),
        cut_short(a, fours)
    )
}
