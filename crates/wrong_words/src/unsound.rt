//! Wrong words behind a right header: every drop ends and answers a number, and writes none of words 0 to 7 and none beyond the
//! arena. What it frees is not promised.
ghost use Rattle.std.specs.Prelude.{◌≤◌, IfSome};

use shown::{answer, lent, steps};
use std::io;

// The arena has 24 branch cells of 19 words from word 33 on, 7 entry cells of 6 words from word 489 on, and 7 slots: 531
// words. Behind it are nine that are not its own.
const TOTAL: usize = 531;

const WORDS: usize = 540;

// The root of K5, which is edition 5: the second word of its slot.
fn root(a: &[u64]) -> u64 {
    lent::word(a, 28)
}

// The first word of the cell that a reference names, if it names one.
fn place(r: u64) -> Option<usize>
    ensures { IfSome result (λ at. at ≤ 8000) }
{
    if r < 2 || 50 <= r {
        return None;
    }
    let cell = (r / 2 - 1) as usize;
    if r % 2 == 0 {
        Some(33 + 19 * cell)
    } else {
        Some(489 + 6 * cell)
    }
}

// A word of a cell, 0 where there is none, and another one in its place.
fn get(a: &[u64], r: u64, k: usize) -> u64
    requires { k ≤ 19 }
{
    match place(r) {
        Some(at) => lent::word(a, at + k),
        None => 0,
    }
}

fn put(a: &mut [u64], r: u64, k: usize, word: u64)
    requires { k ≤ 19 }
{
    if let Some(at) = place(r) {
        lent::put(a, at + k, word);
    }
}

// The entry cell that has a key.
fn entry(a: &[u64], key: u64) -> Option<u64> {
    for cell in 1..8 {
        let r = 2 * cell + 1;
        if get(a, r, 4) == key {
            return Some(r);
        }
    }
    None
}

fn begin(a: &mut [u64]) {
    let _ = shelf::format(a, 16, 24, 7, 7);
    steps::before(a, 6);
}

// Whether the words from a place on and before another are those of the copy.
fn is_kept(a: &[u64], copy: &[u64], from: usize, end: usize) -> bool {
    (from..end).all(|i| lent::word(a, i) == lent::word(copy, i))
}

fn let_go(rt: &impl Print, a: &mut [u64], edition: u64) -> io::Result<()> {
    print!(rt; " {}", answer::number(shelf::drop(a, edition)))
}

// K5 is dropped, and then all the others.
fn tried(rt: &impl Print, a: &mut [u64], label: &str) -> io::Result<()> {
    let mut copy = [0u64; WORDS];
    lent::copy(a, &mut copy);
    print!(rt; "{label}")?;
    for edition in (0..6).rev() {
        let_go(rt, a, edition)?;
    }
    if is_kept(a, &copy, 0, 8) && is_kept(a, &copy, TOTAL, WORDS) {
        println!(rt; "; words 0 to 7 and beyond the arena as before")
    } else {
        println!(rt; "; WORDS CHANGED")
    }
}

// Another word at a place of a cell of K1 to K5.
fn with(rt: &impl Print, a: &mut [u64], label: &str, r: u64, k: usize, word: u64) -> io::Result<()>
    requires { k ≤ 19 }
{
    put(a, r, k, word);
    tried(rt, a, label)?;
    begin(a);
    Ok(())
}

// A branch has its children from the fourth word on: those of K5's root are C, the branch of A and B, and the path of D and E.
fn children(rt: &impl Print, a: &mut [u64]) -> io::Result<()> {
    let r = root(a);
    let path = get(a, r, 5);
    let below = get(a, path, 3);
    let free = lent::word(a, 8);
    with(rt, a, "  a child of K5's root names the root:", r, 3, r)?;
    with(rt, a, "  two branches name each other:", below, 3, path)?;
    with(rt, a, "  a child names a free cell:", r, 3, free)?;
    with(rt, a, "  a child names no cell:", r, 3, 1000)?;
    with(rt, a, "  a child is the largest number:", r, 4, u64::MAX)?;
    with(rt, a, "  a child is missing:", r, 3, 0)
}

// E stands before D in the chain; the third word is the next.
fn chain(rt: &impl Print, a: &mut [u64]) -> io::Result<()> {
    let (Some(front), Some(end)) = (entry(a, 5), entry(a, 4)) else {
        return println!(rt; "  NO ENTRY");
    };
    let free = lent::word(a, 9);
    let r = root(a);
    with(rt, a, "  E's next is E:", front, 2, front)?;
    with(rt, a, "  D's next is E:", end, 2, front)?;
    with(rt, a, "  D's next is a free cell:", end, 2, free)?;
    with(rt, a, "  D's next is K5's root:", end, 2, r)
}

// The first word is the count.
fn counted(rt: &impl Print, a: &mut [u64]) -> io::Result<()> {
    let r = root(a);
    let (Some(b), Some(c)) = (entry(a, 2), entry(a, 3)) else {
        return println!(rt; "  NO ENTRY");
    };
    let path = get(a, r, 5);
    with(rt, a, "  the count of K5's root is 0:", r, 0, 0)?;
    with(rt, a, "  the count of K5's root is too large:", r, 0, 9)?;
    with(
        rt,
        a,
        "  the count of the path of D and E is the largest number:",
        path,
        0,
        u64::MAX,
    )?;
    with(rt, a, "  the count of B is 0:", b, 0, 0)?;
    with(
        rt,
        a,
        "  the count of C is 1 though three roots name it:",
        c,
        0,
        1,
    )
}

// The second word of a branch is its depth, the third its bitmap.
fn others(rt: &impl Print, a: &mut [u64]) -> io::Result<()> {
    let r = root(a);
    let path = get(a, r, 5);
    with(rt, a, "  the depth of K5's root is 1:", r, 1, 1)?;
    with(
        rt,
        a,
        "  the depth of the path of D and E is 0:",
        path,
        1,
        0,
    )?;
    with(rt, a, "  the bitmap of K5's root is 0:", r, 2, 0)
}

// Both words of the header from a place on.
fn header(rt: &impl Print, a: &mut [u64], label: &str, at: usize, word: u64) -> io::Result<()>
    requires { at ≤ 10 }
{
    lent::put(a, at, word);
    lent::put(a, at + 1, word);
    tried(rt, a, label)?;
    begin(a);
    Ok(())
}

pub fn show(rt: &impl Print) -> io::Result<()> {
    println!(rt; "Wrong words behind a right header (degree 16): K5 and then all others dropped")?;
    let mut a = [7u64; WORDS];
    begin(&mut a);
    tried(rt, &mut a, "  none:")?;
    begin(&mut a);
    children(rt, &mut a)?;
    chain(rt, &mut a)?;
    counted(rt, &mut a)?;
    others(rt, &mut a)?;
    header(rt, &mut a, "  words 8 and 9 name no cell:", 8, 999)?;
    header(rt, &mut a, "  words 8 and 9 are 0:", 8, 0)?;
    header(rt, &mut a, "  words 10 and 11 are 0:", 10, 0)?;
    header(
        rt,
        &mut a,
        "  words 10 and 11 are the largest number:",
        10,
        u64::MAX,
    )
}
