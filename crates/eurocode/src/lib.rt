// The tabled bars and concretes of Eurocode 2, and its design situations.

#![tactic(auto)]

ghost use Rattle.std.specs.Prelude.{◌<◌};

mod bars;
mod concrete;
mod situations;
mod tables;

pub use situations::UnknownSituation;
pub use tables::{DIAMETERS, STRENGTHS, TabledSize};

// A bar's diameter, by its row in the table, so that every value is a tabled one. It and the strength are two types, and not
// one with the table for a parameter: no derive takes a ghost field of a generic struct, and what a definition says of a
// diameter would have to name the table's members too.
#[derive(Clone, Copy)]
pub struct Diameter {
    row: usize,
    ghost listed: { row < 11 },
}

// A concrete's characteristic strength, by its row in the table, so that every value is a tabled one.
#[derive(Clone, Copy)]
pub struct Strength {
    row: usize,
    ghost listed: { row < 9 },
}

// A design situation.
#[derive(Clone, Copy, Debug, PartialEq, Eq)]
pub enum Situation {
    Persistent,
    Accidental,
}
