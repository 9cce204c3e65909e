//! How many cells of an arena are named how often. Each cell keeps its count in its first word, and no call shows it yet; so
//! the words are read here. The arena has degree 16: a branch cell has 19 words, an entry cell 6.
ghost use Rattle.std.specs.Prelude.{◌≤◌};

use shown::lent;
use std::io;

// How many of the cells from a word on, up to another, are named so often.
fn named(a: &[u64], from: usize, end: usize, width: usize, times: u64) -> u64
    requires { (1 ≤ width) × (width ≤ 19) × (end ≤ 8192) }
{
    let Some(cells) = a.get(from..end) else {
        return 0;
    };
    cells
        .chunks(width)
        .filter(|cell| lent::word(*cell, 0) == times)
        .count() as u64
}

// The cells that are named 0 to 13 times.
fn say_kind(
    rt: &impl Print,
    a: &[u64],
    label: &str,
    from: usize,
    end: usize,
    width: usize,
) -> io::Result<()>
    requires { (1 ≤ width) × (width ≤ 19) × (end ≤ 8192) }
{
    print!(rt; "{label}")?;
    for times in 0..14 {
        print!(rt; " {}", named(a, from, end, width, times))?;
    }
    Ok(())
}

// The branch cells lie from a word on and the entry cells from another, up to the end of the arena.
pub fn say(
    rt: &impl Print,
    a: &[u64],
    branches: usize,
    entries: usize,
    end: usize,
) -> io::Result<()>
    requires { (entries ≤ 8192) × (end ≤ 8192) }
{
    say_kind(
        rt,
        a,
        "  named 0 to 13 times: branch cells",
        branches,
        entries,
        19,
    )?;
    say_kind(rt, a, "; entry cells", entries, end, 6)?;
    println!(rt;)
}
