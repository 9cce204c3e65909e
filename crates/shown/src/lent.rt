//! The words of an arena: read, set, printed, copied, and compared with a copy.
ghost use Rattle.std.specs.Prelude.{◌≤◌, length};

use std::io;

// A word; 0 where there is none.
pub fn word(words: &[u64], at: usize) -> u64 {
    words.get(at).copied().unwrap_or(0)
}

pub fn put(words: &mut [u64], at: usize, word: u64) {
    if let Some(place) = words.get_mut(at) {
        *place = word;
    }
}

fn say(rt: &impl Print, label: &str, words: &[u64]) -> io::Result<()> {
    print!(rt; "{label}")?;
    for word in words {
        print!(rt; " {word}")?;
    }
    println!(rt;)
}

// The words from a place on and before another.
pub fn say_part(
    rt: &impl Print,
    label: &str,
    words: &[u64],
    from: usize,
    end: usize,
) -> io::Result<()>
    requires { (from ≤ end) × (end ≤ length words.now) }
{
    say(rt, label, &words[from..end])
}

// As many of the words as there is room for.
pub fn copy(words: &[u64], room: &mut [u64]) {
    let n = words.len().min(room.len());
    room[..n].copy_from_slice(&words[..n]);
}

// Whether the copy begins with these words.
pub fn is_same(words: &[u64], before: &[u64]) -> bool {
    before.starts_with(words)
}

// Whether a call left every word as it was.
pub fn say_kept(rt: &impl Print, words: &[u64], before: &[u64]) -> io::Result<()> {
    if is_same(words, before) {
        println!(rt; "; no word changed")
    } else {
        println!(rt; "; words changed")
    }
}
