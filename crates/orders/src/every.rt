//! A set of editions dropped in every order. After each drop the editions that are left are compared with what they were
//! before the first, and the numbers answered with what the cells in use fell by; at the end every cell is to be free.
ghost use Rattle.std.specs.Prelude.{◌≤◌, IfSome};

use crate::free_cells;
use shelf::{CellCounts, Refusal};
use shown::{answer, lent};
use std::io;

// The words of the largest arena, and the slots of each.
pub const WORDS: usize = 997;

const SLOTS: u64 = 6;

// The cells of an arena, and how many editions are held in it.
#[derive(Clone, Copy, Debug)]
pub struct Set {
    pub branches: u64,
    pub entries: u64,
    pub editions: u64,
}

fn in_use(a: &[u64]) -> CellCounts {
    shelf::in_use(a).unwrap_or(CellCounts {
        branches: 0,
        entries: 0,
    })
}

// Whether a drop answers what the cells in use fell by.
fn is_fall(was: CellCounts, now: CellCounts, answer: Result<CellCounts, Refusal>) -> bool {
    let Ok(CellCounts { branches, entries }) = answer else {
        return false;
    };
    was.branches == now.branches.wrapping_add(branches)
        && was.entries == now.entries.wrapping_add(entries)
}

// One more for what is not as it should be.
fn count_other(n: u64, right: bool) -> u64 {
    if right { n } else { n.saturating_add(1) }
}

// The first of a slot's three words, which lie from word 12 on.
fn is_held(a: &[u64], edition: u64) -> bool
    requires { edition ≤ 6 }
{
    lent::word(a, 12 + 3 * edition as usize) == 1
}

// How many editions are held.
fn held(a: &[u64]) -> u64 {
    let mut n = 0;
    for edition in 0..SLOTS {
        n = count_other(n, !is_held(a, edition));
    }
    n
}

// The edition that has so many held ones before it, if there is one.
fn held_behind(a: &[u64], k: u64) -> Option<u64>
    ensures { IfSome result (λ edition. edition ≤ 6) }
{
    let mut passed = 0;
    for edition in 0..SLOTS {
        if is_held(a, edition) {
            if passed == k {
                return Some(edition);
            }
            passed = passed.saturating_add(1);
        }
    }
    None
}

// Whether an edition lists the same in two arenas. No edition here has more than six entries.
fn is_listed_same(a: &[u64], before: &[u64], edition: u64) -> bool {
    let mut now = [0u64; 18];
    let mut was = [0u64; 18];
    let n = shelf::list(a, edition, 0, &mut now).unwrap_or(0);
    let m = shelf::list(before, edition, 0, &mut was).unwrap_or(0);
    n == m && lent::is_same(&now, &was)
}

// How many of the editions that are held are listed otherwise than before.
fn listed_otherwise(a: &[u64], before: &[u64]) -> u64 {
    let mut n = 0;
    for edition in 0..SLOTS {
        if is_held(a, edition) {
            n = count_other(n, is_listed_same(a, before, edition));
        }
    }
    n
}

// A drop that is to leave so many editions. Answers how much is not as it should be behind it.
fn let_go(
    rt: &impl Print,
    a: &mut [u64],
    before: &[u64],
    edition: u64,
    left: u64,
) -> io::Result<u64>
    requires { edition ≤ 6 }
{
    let was = in_use(a);
    let answer = shelf::drop(a, edition);
    print!(rt; " {edition}")?;
    answer::say_dropped(rt, answer)?;
    let listed = listed_otherwise(a, before);
    let fallen = count_other(listed, is_fall(was, in_use(a), answer));
    Ok(count_other(fallen, !is_held(a, edition) && held(a) == left))
}

// So many editions dropped, in the order of a number: what it leaves when it is divided by how many are left says which is
// next. That fewer are held is a difference.
fn drop_all(
    rt: &impl Print,
    a: &mut [u64],
    before: &[u64],
    editions: u64,
    order: u64,
) -> io::Result<u64> {
    let mut other = 0u64;
    let mut rest = order;
    for dropped in 0..editions {
        let held = editions - dropped;
        let Some(edition) = held_behind(a, rest % held) else {
            return Ok(other.wrapping_add(1));
        };
        rest /= held;
        other = other.wrapping_add(let_go(rt, a, before, edition, held - 1)?);
        if 1 < held {
            print!(rt; ";")?;
        }
    }
    Ok(other)
}

fn in_order(rt: &impl Print, before: &[u64], set: Set, order: u64) -> io::Result<u64> {
    let mut a = [0u64; WORDS];
    lent::copy(before, &mut a);
    print!(rt; "   ")?;
    let other = drop_all(rt, &mut a, before, set.editions, order)?;
    println!(rt;)?;
    Ok(count_other(other, free_cells::is_all(&a, set.branches, set.entries)))
}

// In how many orders so many editions can be dropped.
fn orders(editions: u64) -> u64 {
    let mut n = 1u64;
    for k in 1..=editions {
        n = n.saturating_mul(k);
    }
    n
}

// The editions of an arena in every order.
pub fn order(rt: &impl Print, before: &[u64], set: Set) -> io::Result<()> {
    let orders = orders(set.editions);
    let mut other = 0u64;
    for order in 0..orders {
        other = other.wrapping_add(in_order(rt, before, set, order)?);
    }
    print!(rt;
        "    {orders} orders: each edition left listed as before, in use less by what is freed"
    )?;
    println!(rt; ", every cell free at the end: {other} differences")
}
