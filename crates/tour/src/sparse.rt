//! A sparse array of three words: set out of order, read, written over, taken from, and refused.
use sparse_array::Refused;
use std::io;

fn packed(rt: &impl Print, words: &[u64]) -> io::Result<()> {
    print!(rt; ": words")?;
    for word in words {
        print!(rt; " {word:x}")?;
    }
    Ok(())
}

// Prints the rest of a line, what the call answered, and answers the bitmap that goes with the words now.
fn outcome(rt: &impl Print, before: u64, changed: Result<u64, Refused>) -> io::Result<u64> {
    match changed {
        Ok(bitmap) => {
            println!(rt; ", bitmap {bitmap:016x}")?;
            Ok(bitmap)
        }
        Err(Refused) => {
            println!(rt; ", refused")?;
            Ok(before)
        }
    }
}

fn set(rt: &impl Print, bitmap: u64, words: &mut [u64], index: u64, value: u64) -> io::Result<u64> {
    print!(rt; "  set {index} to {value:x}")?;
    let changed = sparse_array::set(bitmap, words, index, value);
    packed(rt, words)?;
    outcome(rt, bitmap, changed)
}

fn remove(rt: &impl Print, bitmap: u64, words: &mut [u64], index: u64) -> io::Result<u64> {
    print!(rt; "  remove {index}")?;
    let changed = sparse_array::remove(bitmap, words, index);
    packed(rt, words)?;
    outcome(rt, bitmap, changed)
}

fn get(rt: &impl Print, bitmap: u64, words: &[u64], index: u64) -> io::Result<()> {
    print!(rt; "  get {index}")?;
    match sparse_array::get(bitmap, words, index) {
        Ok(Some(word)) => println!(rt; ": {word:x}"),
        Ok(None) => println!(rt; ": nothing"),
        Err(Refused) => println!(rt; ": refused"),
    }
}

// Three indexes out of order, and then the middle one again.
fn fill(rt: &impl Print, words: &mut [u64]) -> io::Result<u64> {
    let one = set(rt, 0, words, 63, 0xA)?;
    let two = set(rt, one, words, 0, 0xB)?;
    let three = set(rt, two, words, 5, 0xC)?;
    set(rt, three, words, 5, 0xD)
}

fn read(rt: &impl Print, bitmap: u64, words: &[u64]) -> io::Result<()> {
    get(rt, bitmap, words, 63)?;
    get(rt, bitmap, words, 5)?;
    get(rt, bitmap, words, 7)?;
    get(rt, bitmap, words, 64)
}

// No index 64, and no room for a fourth word.
fn refuse(rt: &impl Print, bitmap: u64, words: &mut [u64]) -> io::Result<u64> {
    let same = set(rt, bitmap, words, 64, 0xE)?;
    let still = set(rt, same, words, 7, 0xE)?;
    remove(rt, still, words, 64)
}

// What one index leaves, another one can take.
fn take_out(rt: &impl Print, bitmap: u64, words: &mut [u64]) -> io::Result<u64> {
    let fewer = remove(rt, bitmap, words, 0)?;
    let same = remove(rt, fewer, words, 0)?;
    set(rt, same, words, 7, 0xE)
}

pub fn show(rt: &impl Print) -> io::Result<()> {
    println!(rt; "A sparse array of three words (words and bitmap in hex)")?;
    let mut words = [0u64; 3];
    let full = fill(rt, &mut words)?;
    read(rt, full, &words)?;
    let same = refuse(rt, full, &mut words)?;
    let after = take_out(rt, same, &mut words)?;
    read(rt, after, &words)
}
