//! Branches level by level, the deepest first, and then the slots: what document 01 asks of bitmaps, packing, places, prefixes and
//! sizes, by the leftmost entry and the number of entries below each child. A layer of the shelf, below check, for arenas whose
//! header was seen to be right.
//!
//! The work words are the memory: one for each branch, with what is below it. So each branch is looked at once in full, and at
//! its depth once for each depth of the degree. On any words nothing but these is written.

#![tactic(auto)]

ghost use Rattle.std.specs.Prelude.{◌≡◌, true, suc, ◌*◌, ◌^◌, ◌≤◌, ◌<◌, length};
ghost use Rattle.layout.specs.Layout.{reference, Lent};
ghost use Rattle.layout.specs.Columns.{columns};
ghost use Rattle.lookup.specs.Lookup.{names_kind};
ghost use Rattle.levels.specs.Levels.{seen_entry, fits, closed, ended, row_from, branch_by, see_at, is_at, branch_seen, level_seen, levels_seen, root_right, slot_right, slots_right, kept_as, Known, KeptAt, OnlyAt, OnlyBranches};

use audits::branches;
use layout::{Kind, Shape, words};
use lookup::links;

// What stands below a reference: the reference of the leftmost entry, and how many entries there are.
#[derive(Clone, Copy)]
pub struct Seen {
    pub lead: u64,
    pub size: u64,
}

#[tactic(auto, using(lookup::proofs::FindLaws::has_part), unfolding(crate::specs::Levels::seen_entry))]
fn see_entry(a: &[u64], z: Shape, depth: u64, r: u64) -> Option<Seen>
    requires lent { Lent z a.now }
    requires is_entry { names_kind z 1 r ≡ true }
    ensures { result ≡ seen_entry z (columns z a.now) depth r }
{
    let size = words::word(a, z, r, words::MARK);
    if size == 1 {
        return Some(Seen { lead: r, size: 1 });
    }
    if depth == z.depths {
        return Some(Seen { lead: r, size });
    }
    None
}

// A branch in use by what is kept of it, where its depth is its place.
fn see_kept(a: &[u64], work: &[u64], z: Shape, depth: u64, r: u64) -> Option<Seen>
    requires lent { Lent z a.now }
    requires known { Known z a.now depth work.now }
    requires work_fits { z.branches ≤ length work.now }
    requires is_branch { names_kind z 0 r ≡ true }
    requires is_in_use { 0 < (columns z a.now).count r }
    ensures { result ≡ see_at z (columns z a.now) depth r }
{
    if words::word(a, z, r, words::MARK) != depth {
        return None;
    }
    let kept = work[(r / 2 - 1) as usize];
    Some(Seen {
        lead: kept / 4294967296,
        size: kept % 4294967296,
    })
}

// A reference at a depth: an entry by its words, a branch by what is kept of it. None where it is at fault.
fn see(a: &[u64], work: &[u64], z: Shape, depth: u64, r: u64) -> Option<Seen>
    requires lent { Lent z a.now }
    requires known { Known z a.now depth work.now }
    requires work_fits { z.branches ≤ length work.now }
    ensures { result ≡ see_at z (columns z a.now) depth r }
{
    if !words::is_cell(z, r) {
        return None;
    }
    if words::word(a, z, r, words::COUNT) == 0 {
        return None;
    }
    match Kind::of(r) {
        Kind::Branch => see_kept(a, work, z, depth, r),
        Kind::Entry => see_entry(a, z, depth, r),
    }
}

// Whether a child may stand behind those before it: see specs/Levels.antt.
#[tactic(auto, using(std::proofs::lemmas::Nat::one_shl, std::proofs::Common::pow_pos), unfolding(crate::specs::Levels::fits, crate::specs::Levels::same_prefix))]
fn is_fit(z: Shape, depth: u64, first: u64, low: u64, size: u64, hash: u64, below: u64) -> bool
    requires prefix_fits { depth * z.bits < 64 }
    requires few_bits { z.bits ≤ 6 }
    requires size_fits { size ≤ z.entries }
    ensures { result ≡ fits z depth first low size hash below }
{
    if segments::segment_at(hash, depth, z.bits) < low {
        return false;
    }
    let prefixes = 1u64 << (depth * z.bits);
    if hash % prefixes != first % prefixes {
        return false;
    }
    below <= z.entries - size
}

// All children of a branch are read.
#[tactic(auto, using(layout::proofs::ColumnLaws::has_low, lookup::proofs::FindLaws::kind_says, audits::proofs::StepLaws::bitmap_word), unfolding(crate::specs::Levels::closed))]
fn close(a: &[u64], z: Shape, depth: u64, r: u64, lead: u64, bits: u64, size: u64) -> Option<Seen>
    requires lent { Lent z a.now }
    requires is_branch { names_kind z 0 r ≡ true }
    ensures { result ≡ closed (columns z a.now) depth r lead bits size }
{
    if words::word(a, z, r, words::BITMAP) != bits {
        return None;
    }
    if depth == 0 {
        return Some(Seen { lead, size });
    }
    if size > 1 {
        return Some(Seen { lead, size });
    }
    None
}

// The children end at a place: behind it there are none.
#[tactic(auto, unfolding(crate::specs::Levels::ended))]
fn end_row(
    a: &[u64],
    z: Shape,
    depth: u64,
    r: u64,
    lead: u64,
    k: u64,
    bits: u64,
    size: u64,
) -> Option<Seen>
    requires lent { Lent z a.now }
    requires is_branch { names_kind z 0 r ≡ true }
    requires in_row { k ≤ z.degree }
    ensures { result ≡ ended z (columns z a.now) depth r lead k bits size }
{
    if branches::has_none_from(a, z, r, k) {
        close(a, z, depth, r, lead, bits, size)
    } else {
        None
    }
}

// The children of a branch, from the first on: `lead` is the leftmost entry below the first.
fn read_row(a: &[u64], work: &[u64], z: Shape, depth: u64, r: u64, lead: u64) -> Option<Seen>
    requires lent { Lent z a.now }
    requires known { Known z a.now (suc depth) work.now }
    requires work_fits { z.branches ≤ length work.now }
    requires in_depths { depth < z.depths }
    requires is_branch { names_kind z 0 r ≡ true }
    requires lead_is_entry { names_kind z 1 lead ≡ true }
    ensures { result ≡ row_from (see_at z (columns z a.now) (suc depth)) z (columns z a.now) depth r lead z.degree 0 0 0 0 }
{
    let first = words::word(a, z, lead, words::HASH);
    let mut low = 0;
    let mut bits = 0;
    let mut size = 0;
    for k in 0..z.degree {
        let child = links::kid(a, z, r, k);
        if child == 0 {
            return end_row(a, z, depth, r, lead, k, bits, size);
        }
        let seen = see(a, work, z, depth + 1, child)?;
        let hash = words::word(a, z, seen.lead, words::HASH);
        if !is_fit(z, depth, first, low, size, hash, seen.size) {
            return None;
        }
        let segment = segments::segment_at(hash, depth, z.bits);
        low = segment + 1;
        bits += 1u64 << segment;
        size += seen.size;
    }
    close(a, z, depth, r, lead, bits, size)
}

// A branch at its depth.
fn read_branch(a: &[u64], work: &[u64], z: Shape, depth: u64, r: u64) -> Option<Seen>
    requires lent { Lent z a.now }
    requires known { Known z a.now (suc depth) work.now }
    requires work_fits { z.branches ≤ length work.now }
    requires in_depths { depth < z.depths }
    requires is_branch { names_kind z 0 r ≡ true }
    ensures { result ≡ branch_by (see_at z (columns z a.now) (suc depth)) z (columns z a.now) depth r }
{
    let child = links::kid(a, z, r, 0);
    if child == 0 {
        return None;
    }
    let seen = see(a, work, z, depth + 1, child)?;
    read_row(a, work, z, depth, r, seen.lead)
}

// One word for a leftmost entry and a number of entries.
fn keep(lead: u64, size: u64) -> u64
    requires lead_fits { lead < 2 ^ 32 }
    requires size_fits { size < 2 ^ 32 }
    ensures { result ≡ kept_as lead size }
{
    lead * 4294967296 + size
}

// Whether a branch is in use at a depth.
#[tactic(auto, using(layout::proofs::ColumnLaws::has_low, lookup::proofs::FindLaws::kind_says), unfolding(crate::specs::Levels::is_at))]
fn stands_at(a: &[u64], z: Shape, depth: u64, r: u64) -> bool
    requires lent { Lent z a.now }
    requires is_branch { names_kind z 0 r ≡ true }
    ensures { result ≡ is_at (columns z a.now) depth r }
{
    words::word(a, z, r, words::COUNT) != 0 && words::word(a, z, r, words::MARK) == depth
}

// Branch `i`, where it is in use at a depth: what is below it is kept.
fn see_branch(a: &[u64], work: &mut [u64], z: Shape, depth: u64, i: u64) -> bool
    requires lent { Lent z a.now }
    requires known { Known z a.now (suc depth) work.old }
    requires work_fits { z.branches ≤ length work.old }
    requires in_depths { depth < z.depths }
    requires in_branches { i < z.branches }
    ensures answers { result ≡ branch_seen z (columns z a.now) depth (reference 0 i) }
    ensures kept_at { result ≡ true → KeptAt z a.now depth work.new i }
    ensures only_at { OnlyAt z a.now depth i work.old work.new }
{
    let r = 2 * i + 2;
    if !stands_at(a, z, depth, r) {
        return true;
    }
    let Some(seen) = read_branch(a, &*work, z, depth, r) else {
        return false;
    };
    work[i as usize] = keep(seen.lead, seen.size);
    true
}

// All branches at a depth.
fn see_level(a: &[u64], work: &mut [u64], z: Shape, depth: u64) -> bool
    requires lent { Lent z a.now }
    requires known { Known z a.now (suc depth) work.old }
    requires work_fits { z.branches ≤ length work.old }
    requires in_depths { depth < z.depths }
    ensures answers { result ≡ level_seen z (columns z a.now) depth }
    ensures is_known { result ≡ true → Known z a.now depth work.new }
    ensures only_branches { OnlyBranches z work.old work.new }
{
    for i in 0..z.branches {
        if !see_branch(a, &mut *work, z, depth, i) {
            return false;
        }
    }
    true
}

// Every branch in use, from the last depth up.
pub fn see_levels(a: &[u64], work: &mut [u64], z: Shape) -> bool
    requires lent { Lent z a.now }
    requires known { Known z a.now z.depths work.old }
    requires work_fits { z.branches ≤ length work.old }
    ensures answers { result ≡ levels_seen z (columns z a.now) z.depths }
    ensures is_known { result ≡ true → Known z a.now 0 work.new }
    ensures only_branches { OnlyBranches z work.old work.new }
{
    for depth in (0..z.depths).rev() {
        if !see_level(a, &mut *work, z, depth) {
            return false;
        }
    }
    true
}

// A held root, with the size that its slot says.
#[tactic(auto, unfolding(crate::specs::Levels::root_right, crate::specs::Levels::size_is))]
fn is_root_right(a: &[u64], work: &[u64], z: Shape, root: u64, size: u64) -> bool
    requires lent { Lent z a.now }
    requires known { Known z a.now 0 work.now }
    requires work_fits { z.branches ≤ length work.now }
    ensures { result ≡ root_right z (columns z a.now) root size }
{
    if root == 0 {
        return size == 0;
    }
    match see(a, work, z, 0, root) {
        Some(seen) => seen.size == size,
        None => false,
    }
}

#[tactic(auto, unfolding(crate::specs::Levels::slot_right))]
fn is_slot_right(a: &[u64], work: &[u64], z: Shape, s: u64) -> bool
    requires lent { Lent z a.now }
    requires known { Known z a.now 0 work.now }
    requires work_fits { z.branches ≤ length work.now }
    requires in_slots { s < z.slots }
    ensures { result ≡ slot_right z (columns z a.now) s }
{
    let held = words::slot_word(a, z, s, words::HELD);
    let root = words::slot_word(a, z, s, words::ROOT);
    let size = words::slot_word(a, z, s, words::SIZE);
    if held == 1 {
        return is_root_right(a, work, z, root, size);
    }
    // One test after the other: a chain of && leaves the proof without what each of them said.
    if held != 0 {
        return false;
    }
    if root != 0 {
        return false;
    }
    size == 0
}

// Every slot.
pub fn are_slots_right(a: &[u64], work: &[u64], z: Shape) -> bool
    requires lent { Lent z a.now }
    requires known { Known z a.now 0 work.now }
    requires work_fits { z.branches ≤ length work.now }
    ensures { result ≡ slots_right z (columns z a.now) }
{
    for s in 0..z.slots {
        if !is_slot_right(a, work, z, s) {
            return false;
        }
    }
    true
}
