//! Replays the stored answers of rpds 1.2.1 that lie in its data folder, and prints how many calls and lines there were and
//! how many lines came out otherwise. The answers on the leaves of the shelf are compared with the leaves themselves. The
//! calls on editions are made on the shelf, over an arena of words. It also sees that each file is whole, and that what the
//! crate lists stands in the order of our segments.

#![tactic(auto)]

mod editions;
mod leaves;
mod score;

ghost use Rattle.std.specs.Io.{ReadsAtMost};

use answers::Line;
use score::Score;
use std::fs;
use std::io::{self, Read};
use std::rt::Files;

// What a file is about, and how far it was replayed.
#[derive(Clone, Copy, Debug, PartialEq, Eq)]
enum File {
    Leaves(leaves::Tally),
    Editions(editions::Tally),
}

impl File {
    // Replays a line, and answers whether it came out right.
    fn line(&mut self, words: &mut [u64], out: &mut [u64], line: &Line) -> bool {
        match self {
            File::Leaves(tally) => tally.line(words, line),
            File::Editions(tally) => tally.line(words, out, line),
        }
    }
}

fn show(rt: &impl Print, file: File, score: Score) -> io::Result<()> {
    match file {
        File::Leaves(tally) => print!(rt; ": index_from_hash {}", tally.indexes)?,
        File::Editions(tally) => print!(rt; ": entries listed {}", tally.entries)?,
    }
    score.show(rt)
}

// Replays the lines of a file, with words for what they are replayed on, and an output for what is listed.
fn replay(
    rt: &impl Print,
    text: &[u8],
    words: &mut [u64],
    out: &mut [u64],
    mut file: File,
) -> io::Result<Score> {
    let mut score = Score::default();
    let mut at = 0;
    // A while: the line that was read says where the next one begins, so no range is known beforehand.
    while at < text.len() {
        let line = answers::read_line(text, at);
        at = line.next;
        let right = file.line(words, out, &line);
        score.line(&line, right);
    }
    show(rt, file, score)?;
    Ok(score)
}

// Reads a file of the data folder, as far as the text has room for it, and answers how many bytes that are. A file that cannot be
// read is an error, and ends the program.
fn read(rt: &impl Files, name: &str, text: &mut [u8]) -> io::Result<usize>
    ensures { ReadsAtMost result text.new }
{
    let mut file = fs::open(rt, name)?;
    let mut length = 0;
    // A while: each read says how many bytes it brought, so no range is known beforehand.
    while length < text.len() {
        let n = file.read(&mut text[length..])?;
        if n == 0 {
            return Ok(length);
        }
        length += n;
    }
    Ok(length)
}

fn replay_file(
    rt: &(impl Print + Files),
    name: &str,
    words: &mut [u64],
    file: File,
) -> io::Result<Score> {
    let mut text = [0u8; 65536];
    let mut out = [0u64; 1024];
    let length = read(rt, name, &mut text)?;
    print!(rt; "{name}")?;
    replay(rt, &text[..length], words, &mut out, file)
}

// A sparse array has at most 64 words.
fn replay_leaves(rt: &(impl Print + Files), name: &str) -> io::Result<()> {
    let mut words = [0u64; 64];
    replay_file(rt, name, &mut words, File::Leaves(leaves::Tally::default()))?;
    Ok(())
}

// A file on editions, and the files before it. No arena of the stored answers has more words.
fn replay_editions(
    rt: &(impl Print + Files),
    before: Score,
    name: &str,
    degree: u64,
) -> io::Result<Score> {
    let mut words = [0u64; 8192];
    let tally = editions::Tally::new(degree);
    Ok(before.and(replay_file(rt, name, &mut words, File::Editions(tally))?))
}

// All calls, at each degree, and then the calls that only make editions.
const EDITIONS: [(&str, u64); 12] = [
    ("degree_02", 2),
    ("degree_04", 4),
    ("degree_08", 8),
    ("degree_16", 16),
    ("degree_32", 32),
    ("degree_64", 64),
    ("grows_02", 2),
    ("grows_04", 4),
    ("grows_08", 8),
    ("grows_16", 16),
    ("grows_32", 32),
    ("grows_64", 64),
];

fn main(rt: HostRuntime) -> io::Result<()> {
    replay_leaves(&rt, "leaves")?;
    let mut all = Score::default();
    for (name, degree) in EDITIONS {
        all = replay_editions(&rt, all, name, degree)?;
    }
    all.show_all(&rt)
}
