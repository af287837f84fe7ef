// The anchorage length over the stress, as a table.
ghost use Rattle.std.specs.Prelude.{◌≡◌};
ghost use Rattle.eurocode.specs.Sizes.{mm_of, fck_of};
ghost use Rattle.curves.specs.Points.{point_of};
ghost use Rattle.curves.specs.declared.entries.Joint.TheVariants.{Anchorage};
ghost use Rattle.book.specs.Meaning.{or_zero};

use crate::tables::print_assumptions;
use curves::{Entry, FULL_STRESS, Joint, length};
use std::io;

// How far apart the points are, in tenths of MPa.
pub const STEP: usize = 100;

// The length at a stress; 0 where there is none, as it is printed.
pub(crate) fn point(entry: Entry, stress: u32) -> u32
    ensures { result ≡ or_zero (point_of Anchorage (mm_of entry.diameter) (fck_of entry.strength) entry.bond stress) }
{
    length(entry, Joint::Anchorage, stress).unwrap_or(0)
}

fn print_point(rt: &HostRuntime, entry: Entry, stress: u32) -> io::Result<()> {
    let length = point(entry, stress);
    println!(rt; "{stress};{length}")
}

// Prints the assumptions, which bar it is, a header, and a row for each point up to the full stress.
pub(crate) fn print(rt: &HostRuntime, entry: Entry) -> io::Result<()> {
    print_assumptions(rt)?;
    let dia = entry.diameter.mm();
    let fck = entry.strength.fck();
    let bond = u32::from(entry.bond);
    println!(rt; "this dia;{dia}")?;
    println!(rt; "this fck;{fck}")?;
    println!(rt; "this bond;{bond}")?;
    println!(rt; "stress, 0.1 MPa;anchorage")?;
    for stress in (0..=FULL_STRESS).step_by(STEP) {
        print_point(rt, entry, stress)?;
    }
    print_point(rt, entry, FULL_STRESS)
}
