//! Which degrees format accepts. The slice has room for an arena of any degree that is tried but the largest powers, so
//! that only the degree can be what is wrong.
use shelf::Refusal;
use shown::answer;
use std::io;

// Prints a degree that is accepted, and counts one that is refused with 1. Any other answer is printed with its degree.
fn format(rt: &impl Print, a: &mut [u64], degree: u64, refused: u64) -> io::Result<u64> {
    match shelf::format(a, degree, 1, 1, 1) {
        Ok(()) => print!(rt; " {degree}")?,
        Err(Refusal::BadDegree) => return Ok(refused.saturating_add(1)),
        Err(why) => print!(rt; " {degree} with {}", why.number())?,
    }
    Ok(refused)
}

// So many degrees, each made of its turn.
fn try_all<F: Fn(u32) -> u64>(
    rt: &impl Print,
    a: &mut [u64],
    label: &str,
    turns: u32,
    degree: F,
) -> io::Result<()>
    requires { F.IsAlwaysCallable degree }
{
    print!(rt; "{label}")?;
    let mut refused = 0;
    for turn in 0..turns {
        refused = format(rt, a, degree(turn), refused)?;
    }
    println!(rt; "; refused with 1: {refused}")
}

fn largest(rt: &impl Print, a: &mut [u64]) -> io::Result<()> {
    let answer = shelf::format(a, u64::MAX, 1, 1, 1);
    println!(rt; "  2^64 - 1: answers {}", answer::number(answer))
}

pub fn show(rt: &impl Print) -> io::Result<()> {
    println!(rt; "Degrees (all sizes 1, 8192 words)")?;
    let mut a = [0u64; 8192];
    try_all(
        rt,
        &mut a,
        "  0 to 300: accepted",
        301,
        |turn| u64::from(turn),
    )?;
    let powers = "  1 to 2^63, the powers of two: accepted";
    try_all(rt, &mut a, powers, 64, |turn| 1u64.wrapping_shl(turn))?;
    largest(rt, &mut a)
}
