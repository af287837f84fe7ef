// A bar line.

// Lengths are in mm, areas in tenths of mm², stresses in tenths of MPa, strengths in MPa. Kinds are numbers and not enums:
// a line holds what was written, every list of 23 numbers is a line, and only its test says which of them are admitted.
#[derive(Clone, Copy)]
pub struct BarLine {
    // 1 anchorage in tension, 2 in compression, 3 lap in tension, 4 in compression.
    pub kind: u32,
    // The bar's diameter.
    pub dia: u32,
    pub fck: u32,
    pub fyk: u32,
    // The bar's design stress.
    pub stress: u32,
    // 1 good, 2 other.
    pub bond: u32,
    // 1 straight, 2 bend or hook, 3 loop.
    pub shape: u32,
    // Clear distance to the next bar.
    pub gap: u32,
    // Side cover.
    pub side: u32,
    pub cover: u32,
    // Transverse area.
    pub trans: u32,
    // K, in hundredths.
    pub eff: u32,
    // 1 beam, 2 slab.
    pub member: u32,
    // Diameter of a welded cross bar, 0 for none.
    pub weld: u32,
    // Pressure across the bar.
    pub press: u32,
    // Share lapped, in percent.
    pub share: u32,
    // 1 one, 2 several.
    pub layers: u32,
    // Clear distance between laps.
    pub apart: u32,
    // 1 links or U bars, 0 other.
    pub form: u32,
    // Largest aggregate.
    pub agg: u32,
    // Mandrel diameter of the bend.
    pub mandrel: u32,
    // Bar centres across the bend.
    pub pitch: u32,
    // The length that is provided; its name in a text is `length`.
    pub provided: u32,
}
