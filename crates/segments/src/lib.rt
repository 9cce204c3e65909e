//! The degrees that a trie may have and the path of a hash through it.
//!
//! This is a leaf of the shelf, beside the sparse array: numbers alone, and no code stands below it.
//! A degree's row says how many bits of a hash each branch takes and at how many depths branches stand; a
//! segment is the part of a hash that one depth takes.
//!
//! A caller may rely on this, for any numbers:
//! - `degree_row` answers the row of document 01's table, or none where the degree is not there;
//! - `index_from_hash` answers the segment at a depth, that the hash is exhausted there, or that there is no such
//!   degree.
//!
//! The laws in proofs/TableLaws.antt say what the rows have in common, those in proofs/RowLaws.antt how a row is computed,
//! those in proofs/SegmentLaws.antt that segments fit their branch and determine a hash, and those in
//! proofs/IndexLaws.antt which depths have a segment.

#![tactic(auto)]

ghost use Rattle.std.specs.Prelude.{◌≡◌, ◌*◌, ◌/◌, ◌%◌, ◌^◌, ◌≤◌, ◌<◌};
ghost use Rattle.segments.specs.Segments.{segment, row_of, index_of};

// The row of a degree: the bits of a segment, the depths at which branches stand, and the bits that are left
// for the last of them.
#[derive(Clone, Copy, Debug, PartialEq, Eq)]
pub struct DegreeRow {
    pub bits: u64,
    pub depths: u64,
    pub last: u64,
}

// The place of a hash among the children of a branch at some depth.
// Three outcomes, so no `Option`.
#[derive(Clone, Copy, Debug, PartialEq, Eq)]
pub enum Index {
    At(u64),
    Exhausted,
    NoSuchDegree,
}

// The columns of the table, a byte for each row: that of the row with so many bits stands above as many other bytes.
const DEPTHS: u64 = 0x0B_0D_10_16_20_40_00;

const LAST_BITS: u64 = 0x04_04_04_01_02_01_00;

// The byte of a column that belongs to a row.
fn column(bytes: u64, bits: u64) -> u64
    requires { bits ≤ 6 }
    ensures { result ≡ bytes / 2 ^ (8 * bits) % 256 }
{
    (bytes >> (8 * bits)) % 256
}

// A degree of the table is a power of two whose exponent is its bits. Every call reads the header and so comes here, which is
// why the row is computed and not searched for.
pub fn degree_row(degree: u64) -> Option<DegreeRow>
    ensures { result ≡ row_of degree }
{
    let bits = u64::trailing_zeros(degree) as u64;
    if bits == 0 {
        return None;
    }
    if 6 < bits {
        return None;
    }
    if degree != 1u64 << bits {
        return None;
    }
    Some(DegreeRow {
        bits,
        depths: column(DEPTHS, bits),
        last: column(LAST_BITS, bits),
    })
}

// The segment at a depth that exists, for the layers of the shelf that have a row in hand. The divisor is a power of
// two, so this is a shift and a mask and no division.
#[tactic(auto, using(std::proofs::lemmas::Nat::one_shl, std::proofs::Common::pow_pos), unfolding(crate::specs::Segments::segment))]
pub fn segment_at(hash: u64, depth: u64, bits: u64) -> u64
    requires { (depth * bits < 64) × (bits ≤ 6) }
    ensures { result ≡ segment bits depth hash }
{
    let shift = depth * bits;
    (hash >> shift) % (1u64 << bits)
}

// The depths of the row are tested and not the shift, so that no depth, however large, overflows.
pub fn index_from_hash(hash: u64, depth: u64, degree: u64) -> Index
    ensures { result ≡ index_of hash depth degree }
{
    let Some(row) = degree_row(degree) else {
        return Index::NoSuchDegree;
    };
    if depth < row.depths {
        Index::At(segment_at(hash, depth, row.bits))
    } else {
        Index::Exhausted
    }
}
