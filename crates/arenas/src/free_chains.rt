//! The free chains of an arena that has just been formatted: each free cell names the next in its second word.

use std::io;

// Words 8 and 9 name the first free cells. Branch cells of 7 words lie from word 15 on, and entry cells of 6 from word 36.
pub fn show(rt: &impl Print) -> io::Result<()> {
    println!(rt; "Free chains (degree 4, 3 branch cells, 4 entry cells)")?;
    let mut a = [0u64; 60];
    let _ = shelf::format(&mut a, 4, 3, 4, 1);
    println!(rt;
        "  branch cells: first {}; next in each {} {} {}",
        a[8], a[16], a[23], a[30]
    )?;
    println!(rt;
        "  entry cells: first {}; next in each {} {} {} {}",
        a[9], a[37], a[43], a[49], a[55]
    )
}
