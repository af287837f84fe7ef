// The length that an anchorage or a lap of a ribbed bar needs, and the rules of its detailing (EN 1992-1-1, 8.2 to 8.4
// and 8.7): the numbers that they are over. What they say stands in specs/, and the laws that follow in proofs/.

#![tactic(auto)]

pub mod bonds;

pub use bonds::{Bond, UnknownBond};

// How a bar ends.
#[derive(Clone, Copy, PartialEq, Eq)]
pub enum Shape {
    Straight,
    Bent,
    Loop,
}

// In how many layers bars are lapped.
#[derive(Clone, Copy, PartialEq, Eq)]
pub enum Layers {
    One,
    Several,
}

// What the transverse steel is made of.
#[derive(Clone, Copy, PartialEq, Eq)]
pub enum Ties {
    // Links or U bars.
    Links,
    Other,
}

// Which of the standard's cases a bar is. Three of them are yes or no, as the formulas ask them: an enum of two names for
// each would be turned into that answer at every use.
#[derive(Clone, Copy)]
pub struct Detail {
    // A lap, else an anchorage.
    pub lap: bool,
    // In tension, else in compression.
    pub tension: bool,
    // In a beam, else in a slab.
    pub beam: bool,
    pub shape: Shape,
}

// The numbers that the formulas are over: those of a line, of the tables beside it and of the annex in a situation.
// Lengths are in mm, areas in tenths of mm², stresses and tensile strengths in tenths of MPa, fck and fyk in MPa; γc, γs,
// αct, αcc and K are in hundredths, k1 in tenths, the share in percent.
#[derive(Clone, Copy)]
pub struct Bar {
    pub dia: u64,
    pub area: u64,
    pub fck: u64,
    pub fctk: u64,
    pub fyk: u64,
    pub stress: u64,
    pub bond: Bond,
    pub gap: u64,
    pub side: u64,
    pub cover: u64,
    pub trans: u64,
    pub eff: u64,
    pub weld: u64,
    pub press: u64,
    pub share: u64,
    pub layers: Layers,
    pub apart: u64,
    pub ties: Ties,
    pub agg: u64,
    pub mandrel: u64,
    pub pitch: u64,
    // The length that is provided.
    pub provided: u64,
    pub gc: u64,
    pub gs: u64,
    pub act: u64,
    pub acc: u64,
    pub k1: u64,
    pub k2: u64,
    pub multiple: u64,
}
