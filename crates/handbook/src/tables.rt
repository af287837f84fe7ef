// All lengths at full stress.
use curves::{Bond, Entry, FULL_STRESS, Joint, length};
use eurocode::{Diameter, Strength, TabledSize};
use std::io;

// Prints what the lengths of every page assume, one assumption to a line.
pub(crate) fn print_assumptions(rt: &HostRuntime) -> io::Result<()> {
    println!(rt; "annex;recommended")?;
    println!(rt; "situation;persistent")?;
    println!(rt; "force;tension")?;
    println!(rt; "shape;straight")?;
    println!(rt; "fyk, MPa;500")?;
    println!(rt; "full stress, 0.1 MPa;{FULL_STRESS}")?;
    println!(rt; "gap;2 dia")?;
    println!(rt; "side;dia")?;
    println!(rt; "cover;dia")?;
    println!(rt; "alpha2 to alpha5;1")?;
    println!(rt; "lengths and dia;mm")?;
    println!(rt; "fck;MPa")?;
    println!(rt; "bond;1 good, 2 other")
}

fn print_row(rt: &HostRuntime, entry: Entry) -> io::Result<()> {
    let bond = u32::from(entry.bond);
    let dia = entry.diameter.mm();
    let fck = entry.strength.fck();
    let anchorage = length(entry, Joint::Anchorage, FULL_STRESS).unwrap_or(0);
    let half = length(entry, Joint::Lap { share: 50 }, FULL_STRESS).unwrap_or(0);
    let all = length(entry, Joint::Lap { share: 100 }, FULL_STRESS).unwrap_or(0);
    println!(rt; "{bond};{dia};{fck};{anchorage};{half};{all}")
}

// A walk along a table has no name that a function could return it by, so it is written at each.
fn print_diameter(rt: &HostRuntime, bond: Bond, diameter: Diameter) -> io::Result<()> {
    for strength in Strength::table()
        .iter()
        .filter_map(|fck| Strength::new(*fck))
    {
        print_row(
            rt,
            Entry {
                diameter,
                strength,
                bond,
            },
        )?;
    }
    Ok(())
}

fn print_bond(rt: &HostRuntime, bond: Bond) -> io::Result<()> {
    for diameter in Diameter::table().iter().filter_map(|mm| Diameter::new(*mm)) {
        print_diameter(rt, bond, diameter)?;
    }
    Ok(())
}

// Prints the assumptions, a header, and a row for each bond, diameter and strength.
pub(crate) fn print(rt: &HostRuntime) -> io::Result<()> {
    print_assumptions(rt)?;
    println!(rt; "share lapped, percent;50 and 100")?;
    println!(rt; "bond;dia;fck;anchorage;lap 50;lap 100")?;
    print_bond(rt, Bond::Good)?;
    print_bond(rt, Bond::Other)
}
