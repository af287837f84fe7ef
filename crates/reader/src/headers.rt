// What was learnt from a text's first line, and a line of its values. The calls are in modules below, since a struct's
// invariant may not cite what is defined of that struct.
ghost use Rattle.std.specs.Prelude.{◌≡◌, ◌≤◌, true, take};
ghost use Rattle.reader.specs.Places.{all_within};

mod line;
mod placing;
mod whole;

pub use whole::check;

// The most fields that names can be given to. How many there are is the value's to say, so a header and a line have room for so
// many, in fixed memory, and a count beside it.
pub const MOST_FIELDS: usize = 30;

// For each field the place, from 1, at which its name stands in the first line.
#[derive(Clone, Copy)]
pub struct Header {
    places: [u32; MOST_FIELDS],
    fields: usize,
    ghost few: { fields ≤ 30 },
    ghost placed: { all_within fields (take fields places) ≡ true },
}

// The numbers of one line, in the order of the fields.
#[derive(Clone, Copy)]
pub struct Fields {
    numbers: [u32; MOST_FIELDS],
    count: usize,
    ghost few: { count ≤ 30 },
}
