//! The check, where the header was seen to be right: whether an arena is sound. A layer of the shelf, whose public calls read the
//! header first. What it promises is in specs/Terms.antt; that its tests together decide soundness is
//! proofs/CheckLaws.antt.

#![tactic(auto)]

ghost use Rattle.std.specs.Prelude.{length, ◌≤◌};
ghost use Rattle.layout.specs.Header.{Header};
ghost use Rattle.tallies.specs.Tallies.{work_words};
ghost use Rattle.checks.specs.Terms.{Judged, Checks};

use audits::{branches, entries, free};
use layout::{Kind, Shape};
use replies::Refusal;

// Each cell by itself; branches and slots; counts and free chains; and last the keys, since chains are known to end by then.
#[tactic(auto, using(crate::proofs::JudgeLaws::tested))]
fn is_sound(a: &[u64], work: &mut [u64], z: Shape) -> bool
    requires header { Header a.now z }
    requires work_fits { work_words z ≤ length work.old }
    ensures { Judged z a.now work.old result work.new }
{
    if !entries::are_right(a, z) {
        return false;
    }
    if !branches::are_right(a, z) {
        return false;
    }
    if !levels::see_levels(a, &mut *work, z) {
        return false;
    }
    if !levels::are_slots_right(a, &*work, z) {
        return false;
    }
    tallies::tally(a, &mut *work, z);
    if !tallies::are_counts(a, &*work, z) {
        return false;
    }
    if !free::is_right(a, z, Kind::Branch) {
        return false;
    }
    if !free::is_right(a, z, Kind::Entry) {
        return false;
    }
    entries::have_own_keys(a, z)
}

pub fn check(a: &[u64], work: &mut [u64], z: Shape) -> Result<(), Refusal>
    requires { Header a.now z }
    ensures { Checks a.now work.old result work.new }
{
    if (work.len() as u64) < z.branches + z.entries {
        return Err(Refusal::WorkTooShort);
    }
    if is_sound(a, &mut *work, z) {
        return Ok(());
    }
    tallies::clear(work, z);
    Err(Refusal::Damaged)
}
