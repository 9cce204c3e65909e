//! The paths of the shelf table's hashes, segment by segment.
use segments::Index;
use std::io;

// Prints the segment at a depth and answers whether there is one.
fn step(rt: &impl Print, hash: u64, depth: u64, degree: u64) -> io::Result<bool> {
    match segments::index_from_hash(hash, depth, degree) {
        Index::At(segment) => {
            print!(rt; " {segment:x}")?;
            Ok(true)
        }
        Index::Exhausted => {
            print!(rt; ", exhausted at depth {depth}")?;
            Ok(false)
        }
        Index::NoSuchDegree => {
            print!(rt; " no such degree")?;
            Ok(false)
        }
    }
}

// No degree has more than 64 depths, so the walk ends by itself before the bound does.
fn walk(rt: &impl Print, hash: u64, degree: u64) -> io::Result<()> {
    for depth in 0..=64 {
        if !step(rt, hash, depth, degree)? {
            break;
        }
    }
    Ok(())
}

fn path(rt: &impl Print, hash: u64, degree: u64) -> io::Result<()> {
    print!(rt; "  degree {degree}, hash {hash:x}:")?;
    walk(rt, hash, degree)?;
    println!(rt;)
}

pub fn show(rt: &impl Print) -> io::Result<()> {
    println!(rt; "Paths (hash and segments in hex)")?;
    for hash in [0x26, 0x16, 0x42, 0x7000000000000008] {
        path(rt, hash, 16)?;
    }
    for degree in [64, 8] {
        path(rt, 0, degree)?;
        path(rt, 0x8000000000000000, degree)?;
    }
    Ok(())
}
