//! What the calls refuse once all slots are held, in the order of the tests: 4 before 5, and 5 before 7. No refusal changes
//! a word.
use shown::{answer, damaged, lent};
use std::io;

fn no_slot(rt: &impl Print, a: &mut [u64]) -> io::Result<()> {
    let made = answer::number(shelf::new_edition(a));
    let shared = answer::number(shelf::share(a, 0));
    print!(rt; "    all held: new answers {made}, share of 0 answers {shared}")
}

// The edition is of a slot that is not held, or that is not there.
pub fn no_such_edition(rt: &impl Print, a: &mut [u64], edition: u64) -> io::Result<()> {
    let shared = answer::number(shelf::share(a, edition));
    let sized = answer::number(shelf::size(a, edition));
    print!(rt; ", share of {edition} answers {shared}, size of {edition} answers {sized}")
}

// How many of the four calls answer 4 on a damaged arena. Three of them have another fault too, no free slot or no such
// edition, but 4 comes first.
fn fours(a: &mut [u64]) -> u64 {
    let damaged = [
        answer::is_damaged(shelf::new_edition(&mut *a)),
        answer::is_damaged(shelf::share(&mut *a, 4)),
        answer::is_damaged(shelf::size(&*a, 4)),
        answer::is_damaged(shelf::in_use(&*a)),
    ];
    damaged::count(damaged)
}

// Every refusal on an arena whose slots are all held. The slice has just its words, so that word 3 raised by one, one more
// entry cell, has no room; the largest arena that is shown has 255.
pub fn show(rt: &impl Print, a: &mut [u64]) -> io::Result<()> {
    let mut before = [0u64; 255];
    lent::copy(a, &mut before);
    no_slot(rt, a)?;
    no_such_edition(rt, a, 4)?;
    print!(rt;
        "\n    words 0 to 7 damaged: 4 from {} of 32 calls; cut short: 4 from {} of 12 calls",
        damaged::wrong_words(a, |word| word.wrapping_add(1), fours),
        damaged::cut_short(a, fours)
    )?;
    lent::say_kept(rt, a, &before)
}
