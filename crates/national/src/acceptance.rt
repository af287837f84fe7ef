// The test of an annex's numbers.
ghost use Rattle.std.specs.Prelude.{◌≡◌, ◌<◌, length, nat_lt, position, IfSome};
ghost use Rattle.std.specs.List.{zip};
ghost use Rattle.annex.specs.Numbers.{numbers_of};
ghost use Rattle.annex.specs.Laws.{first_out, first_fall};
ghost use Rattle.national.specs.Acceptance.{accepted_of};

use crate::names::AnnexFields;
use annex::{MULTIPLES, NUMBERS, Numbers};
use refusal::Refusal;

// The place of the first multiple.
const FIRST_MULTIPLE: usize = NUMBERS - MULTIPLES;

// The place of the first multiple that has one before it.
const SECOND_MULTIPLE: usize = FIRST_MULTIPLE + 1;

// The numbers that these fields list, or why no annex has such numbers.
pub(crate) fn accepted(fields: &[u32; NUMBERS]) -> Result<Numbers, Refusal>
    ensures { result ≡ accepted_of fields.now }
{
    if let Some(field) = first_out(fields) {
        return Err(Refusal::AnnexRange { field });
    }
    if let Some(field) = first_fall(fields) {
        return Err(Refusal::Falling { field });
    }
    Ok(Numbers::from(*fields))
}

// The first field out of its range, from 1; there are few, so it fits.
fn first_out(fields: &[u32; NUMBERS]) -> Option<u32>
    ensures { result ≡ first_out fields.now }
{
    fields::first_out(AnnexFields.fields(), fields).map(|field| field as u32)
}

// The first field with a multiple smaller than the one before it, from 1.
fn first_fall(fields: &[u32; NUMBERS]) -> Option<u32>
    ensures { result ≡ first_fall fields.now }
{
    place_of_fall(&fields[FIRST_MULTIPLE..], &fields[SECOND_MULTIPLE..]).map(
        |place| (SECOND_MULTIPLE + place) as u32 + 1,
    )
}

// The first place, from 0, at which a multiple is smaller than the one before it.
fn place_of_fall(before: &[u32], multiples: &[u32]) -> Option<usize>
    ensures value { result ≡ position (λ p. nat_lt p.1 p.0) (zip before.now multiples.now) }
    ensures within { IfSome result (λ place. place < length multiples.now) }
{
    before
        .iter()
        .zip(multiples)
        .position(|(before, n)| n < before)
}
