//! Hash 0, then 2^63, at every degree: K11 at degree 64, K12 at degree 8. The two differ in the last segment alone, so the
//! second insert makes a branch at each depth. The arena has exactly the cells needed.
use crate::steps;
use shown::entries;
use std::io;

fn at_degree(rt: &impl Print, degree: u64, branches: u64) -> io::Result<()> {
    println!(rt; "Hash 0, then 2^63 (degree {degree})")?;
    let mut a = [0u64; 837];
    let _ = shelf::format(&mut a, degree, branches, 2, 3);
    let _ = shelf::new_edition(&mut a);
    steps::insert(
        rt,
        &mut a,
        "  hash 0 into 0",
        0,
        entries::an_entry(0, 1, 1),
        2,
    )?;
    steps::insert(
        rt,
        &mut a,
        "  hash 2^63 into 1",
        1,
        entries::an_entry(0x8000000000000000, 1, 2),
        3,
    )
}

pub fn show(rt: &impl Print) -> io::Result<()> {
    for (degree, branches) in [(2, 65), (4, 33), (8, 23), (16, 17), (32, 14), (64, 12)] {
        at_degree(rt, degree, branches)?;
    }
    Ok(())
}
