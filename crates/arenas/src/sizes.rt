//! The edges of the three sizes, and which of several faults format names.
use shown::answer;
use std::io;

#[derive(Clone, Copy, Debug, PartialEq, Eq)]
struct Sizes {
    branches: u64,
    entries: u64,
    slots: u64,
}

const ONES: Sizes = Sizes {
    branches: 1,
    entries: 1,
    slots: 1,
};

fn format(rt: &impl Print, a: &mut [u64], n: u64, s: Sizes) -> io::Result<()> {
    let answer = shelf::format(a, 16, s.branches, s.entries, s.slots);
    print!(rt; " {n} answers {}", answer::number(answer))
}

// None, one, as many as may be, and one more: `sizes` puts the number in its place, with 1 for the other two.
fn edges<F: Fn(u64) -> Sizes>(rt: &impl Print, a: &mut [u64], most: u64, sizes: F) -> io::Result<()>
    requires { F.IsAlwaysCallable sizes }
{
    format(rt, a, 0, sizes(0))?;
    for n in [1, most, most.saturating_add(1)] {
        print!(rt; ",")?;
        format(rt, a, n, sizes(n))?;
    }
    println!(rt;)
}

// All three sizes are the same, and no word is lent.
fn first_fault(rt: &impl Print, degree: u64, size: u64) -> io::Result<()> {
    let mut a = [0u64; 1];
    let number = answer::number(shelf::format(&mut a[..0], degree, size, size, size));
    println!(rt; "  degree {degree}, sizes {size}: answers {number}")
}

pub fn show(rt: &impl Print) -> io::Result<()> {
    println!(rt; "Sizes (degree 16, the other two 1, 8192 words)")?;
    let mut a = [0u64; 8192];
    print!(rt; "  branch cells:")?;
    edges(
        rt,
        &mut a,
        1048576,
        |n| Sizes {
            branches: n,
            ..ONES
        },
    )?;
    print!(rt; "  entry cells:")?;
    edges(rt, &mut a, 4194304, |n| Sizes { entries: n, ..ONES })?;
    print!(rt; "  edition slots:")?;
    edges(rt, &mut a, 4096, |n| Sizes { slots: n, ..ONES })?;
    println!(rt; "The first fault (no words)")?;
    for (degree, size) in [(3, 0), (16, 0), (16, 1)] {
        first_fault(rt, degree, size)?;
    }
    Ok(())
}
