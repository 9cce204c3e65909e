//! A walk through the lowest layers of the shelf, for a person to read: the degrees that a trie may have, the paths
//! of some hashes, the classes and keys of some tags, and a sparse array at work. It stands on `segments`, `tags` and
//! `sparse_array` and prints what they answer; the file stdout beside it is what it has to print.

#![tactic(auto)]

mod classes;
mod degrees;
mod paths;
mod sparse;

use std::io;

fn main(rt: HostRuntime) -> io::Result<()> {
    degrees::show(&rt)?;
    paths::show(&rt)?;
    classes::show(&rt)?;
    sparse::show(&rt)
}
