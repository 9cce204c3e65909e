//! A share of an edition that has a root. The edition is a lone entry, laid by the writers of cells and slots.
ghost use Rattle.std.specs.Prelude.{◌≤◌, length};
ghost use Rattle.layout.specs.Layout.{Lent};

use crate::sizes;
use cells::{fill, free, slots};
use layout::{Kind, Shape, header, words};
use shown::{answer, entries, lent};
use std::io;

// An entry in the first free cell, and slot 0 with it as its root.
fn lay_in(a: &mut [u64], z: Shape)
    requires { Lent z a.old }
{
    let r = free::take(&mut *a, z, Kind::Entry);
    if words::is_cell(z, r) {
        match Kind::of(r) {
            Kind::Branch => {}
            Kind::Entry => {
                fill::fill_entry(&mut *a, z, r, 1, 0, entries::of_step(1));
                slots::hold(&mut *a, z, 0, r, 1);
            }
        }
    }
}

fn lay(rt: &impl Print, a: &mut [u64]) -> io::Result<()> {
    let Some(z) = header::read(&*a) else {
        return println!(rt; "  NO ARENA");
    };
    lay_in(a, z);
    Ok(())
}

// The only entry cell lies behind the header, three slots and a branch cell. Its first word is the count.
fn say_entry(rt: &impl Print, a: &[u64]) -> io::Result<()>
    requires { 46 ≤ length a.now }
{
    lent::say_part(rt, "; entry cell", a, 40, 46)
}

fn share(rt: &impl Print, a: &mut [u64], edition: u64) -> io::Result<()>
    requires { 46 ≤ length a.old }
{
    print!(rt; "  share of {edition}")?;
    answer::say_made(rt, ":", shelf::share(a, edition))?;
    say_entry(rt, a)
}

pub fn show(rt: &impl Print) -> io::Result<()> {
    println!(rt; "A share of an edition with a root (degree 16, 3 slots)")?;
    let mut a = [0u64; 46];
    let _ = shelf::format(&mut a, 16, 1, 1, 3);
    lay(rt, &mut a)?;
    print!(rt; "  laid in slot 0")?;
    say_entry(rt, &a)?;
    share(rt, &mut a, 0)?;
    share(rt, &mut a, 1)?;
    sizes::say(rt, "  sizes", &a, 3)
}
