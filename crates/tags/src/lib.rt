//! Tag classes of DICOM data elements and the key under which a tag is stored.
//!
//! This is the outermost layer of the shelf: it turns a tag, a pair of 16-bit numbers, into a class and into
//! a 64-bit key. No code stands below it, and the trie knows only the key.
//!
//! A caller may rely on this, for every pair of numbers and with nothing to show first:
//! - `class_of` answers `class_of`, and the laws in proofs/TagLaws.antt say that this is the one class that the
//!   definition `Is` gives the pair;
//! - `key_1` answers `key1`, which no two pairs share.

#![tactic(auto)]

ghost use Rattle.std.specs.Prelude.{◌≡◌};
ghost use Rattle.tags.specs.Tags.{class_of, key1};

// What a tag is. A block is a byte: a creator's is its element, an element's is the high byte.
#[derive(Clone, Copy, Debug, PartialEq, Eq)]
pub enum Class {
    Public,
    Creator { block: u8 },
    Element { block: u8, low: u8 },
    Unassigned,
}

// The class of a tag. The tests stand in the order of the definition, each with its own answer.
#[tactic(auto, unfolding(crate::specs::Tags::class_of, crate::specs::Tags::is_public, crate::specs::Tags::is_creator, crate::specs::Tags::is_element, crate::specs::Tags::within))]
pub fn class_of(group: u16, element: u16) -> Class
    ensures { result ≡ class_of group element }
{
    if group % 2 == 0 {
        return Class::Public;
    }
    match element {
        0x0010..=0x00FF => Class::Creator {
            block: element as u8,
        },
        0x1000..=0xFFFF => Class::Element {
            block: (element / 256) as u8,
            low: (element % 256) as u8,
        },
        _ => Class::Unassigned,
    }
}

// Key rule 1. The product and the sum stay far below 2 to the power 64, so no tag is refused.
pub fn key_1(group: u16, element: u16) -> u64
    ensures { result ≡ key1 group element }
{
    (group as u64) * 65536 + (element as u64)
}
