//! Editions without entries, at each degree: new ones and shares in turn until all slots are held, and what is refused
//! before and after.
use crate::{refusals, sizes};
use shown::answer;
use std::io;

fn take_slots(rt: &impl Print, a: &mut [u64]) -> io::Result<()> {
    answer::say_made(rt, "    new", shelf::new_edition(a))?;
    answer::say_made(rt, ", share", shelf::share(a, 0))?;
    answer::say_made(rt, ", new", shelf::new_edition(a))?;
    answer::say_made(rt, ", share", shelf::share(a, 2))
}

// The slice has just the words that the arena needs.
fn at_degree(rt: &impl Print, a: &mut [u64], degree: u64) -> io::Result<()> {
    print!(rt; "  degree {degree}")?;
    let answer = shelf::format(a, degree, 3, 5, 4);
    print!(rt; ": format answers {}", answer::number(answer))?;
    refusals::no_such_edition(rt, a, 0)?;
    println!(rt;)?;
    take_slots(rt, a)?;
    sizes::say(rt, "; sizes", a, 4)?;
    refusals::show(rt, a)
}

pub fn show(rt: &impl Print) -> io::Result<()> {
    println!(rt; "Editions (3 branch cells, 5 entry cells, 4 slots)")?;
    for (degree, words) in [(2, 69), (4, 75), (8, 87), (16, 111), (32, 159), (64, 255)] {
        let mut room = [0u64; 255];
        if let Some(a) = room.get_mut(..words) {
            at_degree(rt, a, degree)?;
        }
    }
    Ok(())
}
