//! The answers on `index_from_hash` and on the sparse array, each compared with what `segments` and `sparse_array` answer.
use answers::Line;
use segments::Index;
use sparse_array::Refused;

// What was replayed so far: the bitmap of the array, and which of its words the next line shows.
#[derive(Clone, Copy, Debug, Default, PartialEq, Eq)]
pub struct Tally {
    bitmap: u64,
    place: usize,
    pub indexes: u64,
}

// An answer that may be missing, as the stored answers write it: 1 and the answer, or two zeros. A refusal, which the
// crate has not, is 2.
#[derive(Clone, Copy, Debug, PartialEq, Eq)]
struct Written(u64, u64);

impl Written {
    fn read(answer: Result<Option<u64>, Refused>) -> Self {
        match answer {
            Ok(Some(word)) => Written(1, word),
            Ok(None) => Written(0, 0),
            Err(Refused) => Written(2, 0),
        }
    }

    fn index(answer: Index) -> Self {
        match answer {
            Index::At(segment) => Written(1, segment),
            Index::Exhausted => Written(0, 0),
            Index::NoSuchDegree => Written(2, 0),
        }
    }
}

impl Tally {
    fn index(&mut self, got: Index, answer: Written) -> bool {
        self.indexes = self.indexes.saturating_add(1);
        Written::index(got) == answer
    }

    // The array that a call left, and the bitmap and size that it should have. Its words stand on the next lines.
    fn changed(&mut self, changed: Result<u64, Refused>, bitmap: u64, size: u64) -> bool {
        self.place = 0;
        let Ok(now) = changed else {
            return false;
        };
        self.bitmap = now;
        now == bitmap && sparse_array::size(now) as u64 == size
    }

    // A word of the array as it is packed.
    fn word(&mut self, words: &[u64], word: u64) -> bool {
        let Some(packed) = words.get(self.place) else {
            return false;
        };
        self.place += 1;
        *packed == word
    }

    // A new array: with an empty bitmap no word of the old one counts.
    fn begin(&mut self) -> bool {
        self.bitmap = 0;
        self.place = 0;
        true
    }

    // A line that reads or writes the array, once every word that the last call left has been shown.
    fn on_array(&mut self, words: &mut [u64], line: &Line) -> bool {
        let bitmap = self.bitmap;
        if self.place != sparse_array::size(bitmap) {
            return false;
        }
        let [first, second, third, fourth, ..] = line.numbers;
        match line.letter {
            b'p' => {
                let changed = sparse_array::set(bitmap, words, first, second);
                self.changed(changed, third, fourth)
            }
            b'k' => {
                let changed = sparse_array::remove(bitmap, words, first);
                self.changed(changed, second, third)
            }
            b'a' => self.begin(),
            b'o' => {
                Written::read(sparse_array::get(bitmap, words, first)) == Written(second, third)
            }
            b'h' => Written::read(sparse_array::first(bitmap, words)) == Written(first, second),
            b'q' => Written::read(sparse_array::pop(bitmap, words)) == Written(first, second),
            _ => false,
        }
    }

    // Replays a line, and answers whether it came out right.
    pub fn line(&mut self, words: &mut [u64], line: &Line) -> bool {
        let numbers = line.numbers;
        match line.letter {
            b'#' | b't' => true,
            b'+' => self.word(words, numbers[0]),
            b'x' => self.index(
                segments::index_from_hash(numbers[0], numbers[1], numbers[2]),
                Written(numbers[3], numbers[4]),
            ),
            _ => self.on_array(words, line),
        }
    }
}
