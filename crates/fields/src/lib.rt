// The fields of a line or of an annex: their names, and the values that they admit.

#![tactic(auto)]

ghost use Rattle.std.specs.Prelude.{◌≡◌, ◌<◌, ◌≤◌, [], length, not, position, slice_index_or, IfSome};
ghost use Rattle.std.specs.List.{zip};
ghost use Rattle.checklist.specs.Firsts.{first_failed, test_at};
ghost use Rattle.fields.specs.Fields.{admits, admitted, names_of};
ghost use Rattle.fields.specs.Tables.{values_of, fields_of};

// The values of a field.
#[derive(Clone, Copy)]
pub enum Values {
    // At most so much.
    UpTo(u32),
    // From a least to a greatest.
    Between(u32, u32),
    // Just these.
    OneOf(&'static [u32]),
}

#[derive(Clone, Copy)]
pub struct Field {
    pub name: &'static [u8],
    pub values: Values,
}

impl Values {
    // Whether a number is one of these values. Inlined, so that of a field that stands there by name only its own test is left.
    #[inline(always)]
    pub fn admit(self, n: u32) -> bool
        ensures { result ≡ admits (values_of self) n }
    {
        match self {
            Values::UpTo(most) => n <= most,
            Values::Between(least, most) => (least <= n) & (n <= most),
            Values::OneOf(values) => values.contains(&n),
        }
    }
}

// The name of a field, counted from 0; empty where there is no such field, so that nothing is asked of the caller.
pub fn name_of(fields: &[Field], field: usize) -> &'static [u8]
    ensures { result.now ≡ slice_index_or (names_of (fields_of fields.now)) field [] }
{
    match fields.get(field) {
        Some(field) => field.name,
        None => b"",
    }
}

// The place of the first field that does not admit its number, counted from 0.
fn place_of_first(fields: &[Field], numbers: &[u32]) -> Option<usize>
    ensures value { result ≡ position (λ p. not (admits (values_of p.0.values) p.1)) (zip fields.now numbers.now) }
    ensures within { IfSome result (λ place. place < length fields.now) }
{
    fields
        .iter()
        .zip(numbers)
        .position(|(field, n)| !field.values.admit(*n))
}

// The first field that does not admit its number, counted from 1: a `usize`, since nothing is asked of how many there are.
// As in `checklist`, but along two lists at once: one function for both would have to take the walk and the test as
// closures, and say of both what they do.
pub fn first_out(fields: &[Field], numbers: &[u32]) -> Option<usize>
    ensures value { result ≡ first_failed (test_at (admitted (fields_of fields.now) numbers.now)) 0 (length (admitted (fields_of fields.now) numbers.now)) }
    ensures within { IfSome result (λ field. field ≤ length fields.now) }
{
    place_of_first(fields, numbers).map(|place| place + 1)
}
