// The tables, and what is the same of all sizes that stand in one.
ghost use Rattle.std.specs.Prelude.{◌≡◌, ℕ, List, length, if◌then◌else◌, Some, None, ◌==◌, nat_lt, slice_index, position};
ghost use Rattle.std.specs.Option.{option_map};
ghost use Rattle.eurocode.specs.Tables.{tabled};

// One table for each column, and not one of rows: of each the order is proved once, over all of its pairs.

// Bars, in mm.
pub const DIAMETERS: [u32; 11] = [6, 8, 10, 12, 14, 16, 20, 25, 28, 32, 40];

// Beside each diameter, in tenths of mm².
pub const AREAS: [u32; 11] = [
    283, 503, 785, 1131, 1539, 2011, 3142, 4909, 6158, 8042, 12566,
];

// Concretes by their characteristic compressive strength, in MPa.
pub const STRENGTHS: [u32; 9] = [12, 16, 20, 25, 30, 35, 40, 45, 50];

// Characteristic tensile strength beside each strength, in tenths of MPa.
pub const FCTK: [u32; 9] = [11, 13, 15, 18, 20, 22, 25, 27, 29];

// Mean tensile strength beside each strength, in tenths of MPa.
pub const FCTM: [u32; 9] = [16, 19, 22, 26, 29, 32, 35, 38, 41];

// The row of x in a table, from 0: a line of the library's, as the place of a byte in a text is in another crate.
fn place_in(x: u32, table: &[u32]) -> Option<usize>
    ensures { result ≡ position (λ y. y == x) table.now }
{
    table.iter().position(|y| *y == x)
}

// A size that stands in a table, so that every value is a tabled one.
pub trait TabledSize: Copy {
    ghost table: { List ℕ };

    // The number that a size stands for.
    ghost number: { Self → ℕ };

    // The tabled numbers, in rising order.
    fn table() -> &'static [u32]
        ensures { result.now ≡ table };

    // The size at a row of the table, from 0.
    fn at_row(row: usize) -> Option<Self>
        ensures { option_map number result ≡ (if nat_lt row (length table) then Some (slice_index table row) else None) };

    // The size of a number, if it is tabled.
    fn new(n: u32) -> Option<Self>
        ensures { option_map number result ≡ (if tabled n table then Some n else None) }
    {
        Self::at_row(place_in(n, Self::table())?)
    }

    // Whether a number is tabled.
    fn is_tabled(n: u32) -> bool
        ensures { result ≡ tabled n table }
    {
        place_in(n, Self::table()).is_some()
    }
}
