//! The public calls for C and Rust: `rt lib`, in this folder, makes an archive of them, and `include/shelf.h` declares them. On top of
//! `shelf`, of which each is one call.
//!
//! No export has a precondition. Its contract is that of the public call, with the answer flattened into one struct by the
//! definition in specs/Answers.antt of `replies`: `Says` is that sentence, in specs/Flat.antt of `flat`.

#![tactic(auto)]

ghost use Rattle.std.specs.Prelude.{◌≡◌};
ghost use Rattle.replies.specs.Answers.{unit_answer, number_answer, update_answer, cells_answer, truth_answer};
ghost use Rattle.flat.specs.Flat.{held, Says};
ghost use Rattle.tags.specs.Tags.{class_of, key1};
ghost use Rattle.shelf_c.specs.Classes.{classed, keyed};
ghost use Rattle.makes.specs.Terms.{Formats, MakesNew, Shares};
ghost use Rattle.updates.specs.Terms.{Inserts, Changes};
ghost use Rattle.removes.specs.Terms.{Removes};
ghost use Rattle.drops.specs.Terms.{Drops};
ghost use Rattle.checks.specs.Terms.{Checks};
ghost use Rattle.looks.specs.Terms.{Sizes, Uses, Gets, Lists, Compares};

use flat::{Flat, Values, done};
use tags::Class;

// Makes an arena of the words; every edition that was in it ends.
#[unsafe(no_mangle)]
pub extern "C" fn shelf_format(
    arena: &mut [u64],
    degree: u64,
    branches: u64,
    entries: u64,
    editions: u64,
) -> Flat
    ensures { Says unit_answer (λ x. Formats arena.old degree branches entries editions x arena.new) result }
{
    flat::of(shelf::format(arena, degree, branches, entries, editions))
}

// Whether the arena is sound, by its own test of every word.
#[unsafe(no_mangle)]
pub extern "C" fn shelf_check(arena: &[u64], work: &mut [u64]) -> Flat
    ensures { Says unit_answer (λ x. Checks arena.now work.old x work.new) result }
{
    flat::of(shelf::check(arena, work))
}

// An edition without entries, in the lowest free slot.
#[unsafe(no_mangle)]
pub extern "C" fn shelf_new_edition(arena: &mut [u64]) -> Flat
    ensures { Says number_answer (λ x. MakesNew arena.old x arena.new) result }
{
    flat::of(shelf::new_edition(arena))
}

// The same edition once more, in the lowest free slot.
#[unsafe(no_mangle)]
pub extern "C" fn shelf_share(arena: &mut [u64], edition: u64) -> Flat
    ensures { Says number_answer (λ x. Shares arena.old edition x arena.new) result }
{
    flat::of(shelf::share(arena, edition))
}

// How many entries an edition has.
#[unsafe(no_mangle)]
pub extern "C" fn shelf_size(arena: &[u64], edition: u64) -> Flat
    ensures { Says number_answer (λ x. Sizes arena.now edition x) result }
{
    flat::of(shelf::size(arena, edition))
}

// How many cells of each kind are in use.
#[unsafe(no_mangle)]
pub extern "C" fn shelf_in_use(arena: &[u64]) -> Flat
    ensures { Says cells_answer (λ x. Uses arena.now x) result }
{
    flat::of(shelf::in_use(arena))
}

// The value of a hash and a key in an edition.
#[unsafe(no_mangle)]
pub extern "C" fn shelf_get(arena: &[u64], edition: u64, hash: u64, key: u64) -> Flat
    ensures { Says number_answer (λ x. Gets arena.now edition hash key x) result }
{
    flat::of(shelf::get(arena, edition, hash, key))
}

// The entries of an edition from a place in its listing on.
#[unsafe(no_mangle)]
pub extern "C" fn shelf_list(arena: &[u64], edition: u64, place: u64, out: &mut [u64]) -> Flat
    ensures { Says number_answer (λ x. Lists arena.now edition place out.old x out.new) result }
{
    flat::of(shelf::list(arena, edition, place, out))
}

// Whether two editions have the same entries.
#[unsafe(no_mangle)]
pub extern "C" fn shelf_equal(arena: &[u64], first: u64, second: u64) -> Flat
    ensures { Says truth_answer (λ x. Compares arena.now first second x) result }
{
    flat::of(shelf::equal(arena, first, second))
}

// An edition with an entry put in it; the old edition stays.
#[unsafe(no_mangle)]
pub extern "C" fn shelf_insert(
    arena: &mut [u64],
    edition: u64,
    hash: u64,
    key: u64,
    value: u64,
) -> Flat
    ensures { Says update_answer (λ x. Inserts arena.old edition hash key value x arena.new) result }
{
    flat::of(shelf::insert(arena, edition, hash, key, value))
}

// An edition with another value for a key that it has; the old edition stays.
#[unsafe(no_mangle)]
pub extern "C" fn shelf_change(
    arena: &mut [u64],
    edition: u64,
    hash: u64,
    key: u64,
    value: u64,
) -> Flat
    ensures { Says update_answer (λ x. Changes arena.old edition hash key value x arena.new) result }
{
    flat::of(shelf::change(arena, edition, hash, key, value))
}

// An edition with an entry taken out; the old edition stays.
#[unsafe(no_mangle)]
pub extern "C" fn shelf_remove(arena: &mut [u64], edition: u64, hash: u64, key: u64) -> Flat
    ensures { Says update_answer (λ x. Removes arena.old edition hash key x arena.new) result }
{
    flat::of(shelf::remove(arena, edition, hash, key))
}

// Lets an edition go, and every cell that no other edition reaches.
#[unsafe(no_mangle)]
pub extern "C" fn shelf_drop(arena: &mut [u64], edition: u64) -> Flat
    ensures { Says cells_answer (λ x. Drops arena.old edition x arena.new) result }
{
    flat::of(shelf::drop(arena, edition))
}

// A class as a number and two values: 0 public, 1 creator, 2 private element, 3 unassigned; then the block and the low byte.
fn of_class(class: Class) -> Flat
    ensures { held result ≡ classed class }
{
    match class {
        Class::Public => done(0, 0, 0),
        Class::Creator { block } => done(1, block as u64, 0),
        Class::Element { block, low } => done(2, block as u64, low as u64),
        Class::Unassigned => done(3, 0, 0),
    }
}

// The class of a tag.
#[unsafe(no_mangle)]
pub extern "C" fn shelf_tag_class(group: u16, element: u16) -> Flat
    ensures { Says classed (λ x. x ≡ class_of group element) result }
{
    of_class(tags::class_of(group, element))
}

// The key of a tag by rule 1.
#[unsafe(no_mangle)]
pub extern "C" fn shelf_key_1(group: u16, element: u16) -> Flat
    ensures { Says keyed (λ x. x ≡ key1 group element) result }
{
    tags::key_1(group, element).flat()
}
