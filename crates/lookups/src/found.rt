//! Each key of the shelf table in each edition, and what is close to it.
ghost use Rattle.std.specs.Prelude.{◌≤◌};

use crate::stored;
use shown::answer;
use std::io;

fn get_all(rt: &impl Print, a: &[u64], label: &str, hash: u64, key: u64) -> io::Result<()> {
    print!(rt; "{label}")?;
    for edition in 0..=stored::EDITIONS {
        answer::say_counted(rt, shelf::get(a, edition, hash, key))?;
    }
    println!(rt;)
}

// The key, then another key under its hash, and its key under hashes that differ in the lowest segment, in the next, and
// in the highest bit.
fn near(rt: &impl Print, a: &[u64], name: &str, hash: u64, key: u64) -> io::Result<()>
    requires { key ≤ 5 }
{
    println!(rt; "{name}")?;
    get_all(rt, a, "    ", hash, key)?;
    get_all(rt, a, "    next key     ", hash, key + 1)?;
    get_all(rt, a, "    key 0        ", hash, 0)?;
    get_all(rt, a, "    other lowest ", hash ^ 1, key)?;
    get_all(rt, a, "    other second ", hash ^ 16, key)?;
    get_all(rt, a, "    other highest", hash ^ (1u64 << 63), key)
}

pub fn show(rt: &impl Print, a: &[u64]) -> io::Result<()> {
    println!(rt; "Get, in editions 0 to 9")?;
    near(rt, a, "  A", 0x26, 1)?;
    near(rt, a, "  B", 0x16, 2)?;
    near(rt, a, "  C", 0x42, 3)?;
    near(rt, a, "  D", 0x7000000000000008, 4)?;
    near(rt, a, "  E", 0x7000000000000008, 5)?;
    println!(rt; "  D's key under C's hash")?;
    get_all(rt, a, "    ", 0x42, 4)
}
