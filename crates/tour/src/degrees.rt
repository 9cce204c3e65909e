//! The six rows of the table, and some degrees that are not in it.
use segments::DegreeRow;
use std::io;

fn row(rt: &impl Print, degree: u64) -> io::Result<()> {
    print!(rt; "  degree {degree}")?;
    match segments::degree_row(degree) {
        Some(DegreeRow { bits, depths, last }) => {
            print!(rt; ": bits {bits}, depths {depths}, bits at the last depth {last}")?;
        }
        None => print!(rt; ": refused")?,
    }
    println!(rt;)
}

pub fn show(rt: &impl Print) -> io::Result<()> {
    println!(rt; "Degrees")?;
    for degree in [2, 4, 8, 16, 32, 64, 0, 1, 3, 65, 128] {
        row(rt, degree)?;
    }
    Ok(())
}
