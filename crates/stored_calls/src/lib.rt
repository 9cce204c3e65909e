//! A call of the stored answers, made on the shelf: what it answers, as document 01's number and three values. A layer of the
//! programs that replay them, beside `answers`, which reads their lines.

#![tactic(auto)]

use flat::Flat;

// What stands in a line as the answer of a call that is not made: document 01 has no such number.
const NOT_MADE: Flat = Flat {
    number: 99,
    a: 0,
    b: 0,
    c: 0,
};

// Makes the call of a letter with the arguments that stand first in its line; none where no call has the letter, or where a
// listing has room for more words than the output has.
pub fn make(a: &mut [u64], out: &mut [u64], letter: u8, numbers: [u64; 8]) -> Option<Flat> {
    let [first, second, third, fourth, ..] = numbers;
    match letter {
        b'f' => Some(flat::of(shelf::format(a, first, second, third, fourth))),
        b'n' => Some(flat::of(shelf::new_edition(a))),
        b's' => Some(flat::of(shelf::share(a, first))),
        b'd' => Some(flat::of(shelf::drop(a, first))),
        b'i' => Some(flat::of(shelf::insert(a, first, second, third, fourth))),
        b'c' => Some(flat::of(shelf::change(a, first, second, third, fourth))),
        b'r' => Some(flat::of(shelf::remove(a, first, second, third))),
        b'z' => Some(flat::of(shelf::size(a, first))),
        b'u' => Some(flat::of(shelf::in_use(a))),
        b'g' => Some(flat::of(shelf::get(a, first, second, third))),
        b'l' => {
            let room = out.get_mut(..third as usize)?;
            Some(flat::of(shelf::list(a, first, second, room)))
        }
        b'e' => Some(flat::of(shelf::equal(a, first, second))),
        _ => None,
    }
}

// Whether a reply is the answer of the line, which stands behind so many arguments.
pub fn is_answer(reply: Option<Flat>, numbers: [u64; 8], arguments: usize) -> bool {
    let Some(answer) = numbers.get(arguments..) else {
        return false;
    };
    let Flat { number, a, b, c } = reply.unwrap_or(NOT_MADE);
    answer.starts_with(&[number, a, b, c])
}

// Whether the output has the entry of the line at a place.
pub fn is_entry(out: &[u64], place: usize, numbers: [u64; 8]) -> bool {
    let Some(found) = out.get(place..) else {
        return false;
    };
    found.starts_with(&numbers[..3])
}
