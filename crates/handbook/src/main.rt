// Pages for a handbook: lengths of straight bars in tension under the recommended annex.
//
// Each argument asks for a page: `tables` for all lengths at full stress, `curve DIA FCK BOND` for the anchorage length
// over the stress as a table, and `picture DIA FCK BOND` for the same curve as an SVG. BOND is 1 for good bond and 2 for
// other. Without an argument it prints the tables. Every length is a point of `curves::length`, which is proved never to
// fall between two of them.

#![tactic(auto)]

ghost use Rattle.std.specs.Prelude.{◌≡◌, drop, IfOk};
ghost use Rattle.std.specs.String.{string_bytes};
ghost use Rattle.handbook.specs.Pages.{taken};

use anyhow::anyhow;
use curves::{Bond, Entry};
use eurocode::{Diameter, Strength, TabledSize};
use std::env;

mod curve;
mod picture;
mod tables;

const USAGE: &str = "ask for: tables | curve DIA FCK BOND | picture DIA FCK BOND";

// The entry of a diameter, a strength and a bond, if these are tabled and known.
fn entry_of(dia: &String, fck: &String, bond: &String) -> Option<Entry> {
    Some(Entry {
        diameter: Diameter::new(dia.as_str().parse::<u32>().ok()?)?,
        strength: Strength::new(fck.as_str().parse::<u32>().ok()?)?,
        bond: Bond::try_from(bond.as_str().parse::<u32>().ok()?).ok()?,
    })
}

// Prints the page of a name: `tables`, `curve`, and by any other name the picture. Gives the words behind those it took.
fn print_page<'w>(
    rt: &HostRuntime,
    name: &String,
    behind: &'w [String],
) -> anyhow::Result<&'w [String]>
    ensures { IfOk result (λ rest. rest.now ≡ drop (taken (string_bytes name.now)) behind.now) }
{
    if name.as_str() == "tables" {
        tables::print(rt)?;
        return Ok(behind);
    }
    let [dia, fck, bond, rest @ ..] = behind else {
        return Err(anyhow!("{USAGE}"));
    };
    let Some(entry) = entry_of(dia, fck, bond) else {
        return Err(anyhow!("{USAGE}"));
    };
    if name.as_str() == "curve" {
        curve::print(rt, entry)?;
    } else {
        picture::print(rt, entry)?;
    }
    Ok(rest)
}

// Prints the pages that these words ask for, one after the other; by a loop, since a call for each could overflow the
// stack.
fn print_pages(rt: &HostRuntime, words: &[String]) -> anyhow::Result<()> {
    let mut words = words;
    while let [name, behind @ ..] = words {
        words = print_page(rt, name, behind)?;
    }
    Ok(())
}

fn pages(rt: &HostRuntime) -> anyhow::Result<()> {
    let mut words = Vec::new(rt.alloc());
    for word in env::args(rt)?.skip(1) {
        words.push(word)?;
    }
    if words.is_empty() {
        tables::print(rt)?;
    }
    print_pages(rt, words.as_slice())
}

fn main(rt: HostRuntime) -> anyhow::Result<()> {
    pages(&rt)
}
