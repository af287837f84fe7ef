// What the handbook has a length for.
use anchorage::Bond;
use eurocode::{Diameter, Strength};

// The full stress of fyk 500, in tenths of MPa: the greatest that is at most 500/1.15.
pub const FULL_STRESS: u32 = 4347;

// In tension.
#[derive(Clone, Copy)]
pub enum Joint {
    Anchorage,
    // The share lapped is in percent.
    Lap { share: u32 },
}

#[derive(Clone, Copy)]
pub struct Entry {
    pub diameter: Diameter,
    pub strength: Strength,
    pub bond: Bond,
}
