//! The classes and the keys of tags at the edges of the private ranges.
use std::io;
use tags::Class;

const EDGES: [(u16, u16); 9] = [
    (0x0008, 0x0010),
    (0x0009, 0x000F),
    (0x0009, 0x0010),
    (0x0009, 0x00FF),
    (0x0009, 0x0100),
    (0x0009, 0x0FFF),
    (0x0009, 0x1000),
    (0x0009, 0xFFFF),
    (0xFFFF, 0xFFFF),
];

fn class(rt: &impl Print, group: u16, element: u16) -> io::Result<()> {
    match tags::class_of(group, element) {
        Class::Public => print!(rt; "public"),
        Class::Creator { block } => print!(rt; "creator of block {block:02x}"),
        Class::Element { block, low } => print!(rt; "element {low:02x} of block {block:02x}"),
        Class::Unassigned => print!(rt; "unassigned"),
    }
}

fn tag(rt: &impl Print, group: u16, element: u16) -> io::Result<()> {
    print!(rt; "  ({group:04x},{element:04x}) ")?;
    class(rt, group, element)?;
    let key = tags::key_1(group, element);
    println!(rt; ", key {key:x}")
}

pub fn show(rt: &impl Print) -> io::Result<()> {
    println!(rt; "Tags (in hex)")?;
    for (group, element) in EDGES {
        tag(rt, group, element)?;
    }
    Ok(())
}
