//! The sparse array of a branch: 64 virtual indexes, of which those that hold a word are marked in a bitmap, and
//! the words packed at the front of a lent slice in ascending order of their indexes.
//!
//! This is a leaf of the shelf: no code stands below it. A branch cell's bitmap and child words are such
//! an array; `bitmap` goes in and comes back by value, and `words` is the part of the arena that holds the children.
//!
//! A caller may rely on this of any bitmap and any slice: a call refuses an index of 64 or more, a slice that is
//! shorter than the bitmap says, and a new index for which the slice has no room; a refused call writes nothing; a
//! granted call writes only packed words, and the one that `remove` gives up, which becomes 0.

#![tactic(auto)]

ghost use Rattle.std.specs.Prelude.{◌≡◌, ◌≤◌, ◌<◌, length};
ghost use Rattle.sparse_array.specs.Bitmap.{below, size_of};
ghost use Rattle.sparse_array.specs.Shift.{Inserted, TakenOut};
ghost use Rattle.sparse_array.specs.Places.{place_of};
ghost use Rattle.sparse_array.specs.Finds.{read_at, read_packed, first_of, last_of};
ghost use Rattle.sparse_array.specs.Changes.{Sets, Removes};

// How many virtual indexes there are, a bit of the bitmap for each.
pub const WIDTH: u64 = 64;

// What a call answers that is refused: there is no such index, or the slice has no room for the words.
#[derive(Clone, Copy, Debug, PartialEq, Eq)]
pub struct Refused;

// Where the word of `index` lies among the packed words, if it holds one.
pub fn map_index(bitmap: u64, index: u64) -> Result<Option<usize>, Refused>
    ensures { result ≡ place_of bitmap index }
{
    if WIDTH <= index {
        return Err(Refused);
    }
    if bitmap & (1u64 << index) == 0 {
        return Ok(None);
    }
    Ok(Some(rank(bitmap, index)))
}

// The number of elements set in indexes preceding `index`. The remainder by a power of two keeps the bits below it;
// from `WIDTH` on no word holds such a power, and every element precedes.
pub fn rank(bitmap: u64, index: u64) -> usize
    ensures { result ≡ below bitmap index }
{
    if WIDTH <= index {
        return size(bitmap);
    }
    u64::count_ones(bitmap % (1u64 << index)) as usize
}

// The number of elements set.
pub fn size(bitmap: u64) -> usize
    ensures { result ≡ size_of bitmap }
{
    u64::count_ones(bitmap) as usize
}

// The word at `index`.
pub fn get(bitmap: u64, words: &[u64], index: u64) -> Result<Option<u64>, Refused>
    ensures { result ≡ read_at bitmap words.now index }
{
    if words.len() < size(bitmap) {
        return Err(Refused);
    }
    match map_index(bitmap, index)? {
        Some(i) => Ok(Some(words[i])),
        None => Ok(None),
    }
}

// The word of the lowest index.
#[tactic(auto, using(crate::proofs::Finds::first_word))]
pub fn first(bitmap: u64, words: &[u64]) -> Result<Option<u64>, Refused>
    ensures { result ≡ read_packed first_of bitmap words.now }
{
    let count = size(bitmap);
    if words.len() < count {
        return Err(Refused);
    }
    Ok(words[..count].first().copied())
}

// The word of the highest index. The Rust also drops it from its vector and leaves the bitmap as it is, which only a
// node that is thrown away right after can bear; here nothing is written, since what is wanted is the word.
#[tactic(auto, using(crate::proofs::Finds::last_word))]
pub fn pop(bitmap: u64, words: &[u64]) -> Result<Option<u64>, Refused>
    ensures { result ≡ read_packed last_of bitmap words.now }
{
    let count = size(bitmap);
    if words.len() < count {
        return Err(Refused);
    }
    Ok(words[..count].last().copied())
}

// Puts `value` at `index`: in the place of the word that stands there, or else among the packed words at its rank. What
// is left is the bitmap that goes with the words from now on.
pub fn set(bitmap: u64, words: &mut [u64], index: u64, value: u64) -> Result<u64, Refused>
    ensures { Sets bitmap words.old index value result words.new }
{
    let count = size(bitmap);
    match map_index(bitmap, index)? {
        Some(i) => {
            if words.len() < count {
                return Err(Refused);
            }
            words[i] = value;
            Ok(bitmap)
        }
        None => {
            if words.len() <= count {
                return Err(Refused);
            }
            insert_word(words, rank(bitmap, index), count, value);
            Ok(bitmap | (1u64 << index))
        }
    }
}

// Leaves nothing at `index`. Where nothing stands there already, bitmap and words stay, as in the Rust.
pub fn remove(bitmap: u64, words: &mut [u64], index: u64) -> Result<u64, Refused>
    ensures { Removes bitmap words.old index result words.new }
{
    let count = size(bitmap);
    if words.len() < count {
        return Err(Refused);
    }
    match map_index(bitmap, index)? {
        Some(i) => {
            remove_word(words, i, count);
            Ok(bitmap ^ (1u64 << index))
        }
        None => Ok(bitmap),
    }
}

// The vector's `insert` on the first `count` words: those from `at` on go one place up.
fn insert_word(words: &mut [u64], at: usize, count: usize, value: u64)
    requires { (at ≤ count) × (count < length words.old) }
    ensures { Inserted words.old at count value words.new }
{
    words.copy_within(at..count, at + 1);
    words[at] = value;
}

// The vector's `remove` on the first `count` words: those behind `at` go one place down, and the place that the last
// of them leaves becomes 0, as every word behind the packed ones is in a branch cell.
fn remove_word(words: &mut [u64], at: usize, count: usize)
    requires { (at < count) × (count ≤ length words.old) }
    ensures { TakenOut words.old at count words.new }
{
    words.copy_within(at + 1..count, at);
    words[count - 1] = 0;
}
