//! The sizes of the first editions, and the cells in use.
use shown::answer;
use std::io;

pub fn say(rt: &impl Print, label: &str, a: &[u64], editions: u64) -> io::Result<()> {
    print!(rt; "{label}")?;
    for edition in 0..editions {
        answer::say_counted(rt, shelf::size(a, edition))?;
    }
    answer::say_use(rt, "; in use", a)?;
    println!(rt;)
}
