//! K1 to K5 held, and dropped one by one until K5 stands alone, and K5 last. After each drop every slot is listed: the
//! editions that are left stay as they were.
use shown::{answer, listed, steps};
use std::io;

fn let_go(rt: &impl Print, a: &mut [u64], edition: u64) -> io::Result<()> {
    answer::say_dropped(rt, shelf::drop(a, edition))?;
    answer::say_use(rt, "; in use", a)?;
    println!(rt;)?;
    listed::first(rt, a, 6)
}

// The arena has the 21 branch cells, 5 entry cells and 6 slots that are needed: 459 words.
pub fn show(rt: &impl Print) -> io::Result<()> {
    println!(rt; "K1 to K5, let go one by one (degree 16)")?;
    let mut a = [0u64; 459];
    let _ = shelf::format(&mut a, 16, 21, 5, 6);
    steps::before(&mut a, 6);
    answer::say_use(rt, "  K1 to K5 held: in use", &a)?;
    println!(rt;)?;
    print!(rt; "  the empty edition:")?;
    let_go(rt, &mut a, 0)?;
    for edition in 1..6 {
        print!(rt; "  K{edition}:")?;
        let_go(rt, &mut a, edition)?;
    }
    Ok(())
}
