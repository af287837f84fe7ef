// Values: 0 alone, or one to seven digits that do not begin with 0.
ghost use Rattle.std.specs.Prelude.{◌≡◌, ℕ, ◌<◌, ◌≤◌, length, MatchResult};
ghost use Rattle.std.specs.Option.{ok_or};
ghost use Rattle.refusal.specs.declared.Refusal.TheVariants.{Form};
ghost use Rattle.text.specs.Values.{Writes, digits_from, value_of};

use refusal::Refusal;

// A value has at most seven digits: its first, and six behind it.
const MOST_BEHIND_FIRST: usize = 6;

// The refusal of a part that is no number. The readers above add its place and its text line.
const NO_NUMBER: Refusal = Refusal::Form { line: 0, place: 0 };

// The number that the digits of `rest` write behind the digit `first`.
fn digits(first: u32, rest: &[u8]) -> Result<u32, Refusal>
    requires digit { first < 10 }
    requires few { length rest.now ≤ 6 }
    ensures { result ≡ ok_or (digits_from first rest.now) (Form 0 0) }
{
    let mut number = first;
    for b in rest {
        if !b.is_ascii_digit() {
            return Err(NO_NUMBER);
        }
        number = number * 10 + u32::from(*b - b'0');
    }
    Ok(number)
}

// The number that a part writes.
pub fn value(part: &[u8]) -> Result<u32, Refusal>
    ensures value { result ≡ ok_or (value_of part.now) (Form 0 0) }
    ensures written { MatchResult result (Writes part.now) (λ _. (n : ℕ) → Writes part.now n → ⊥) }
{
    match part {
        [b'0'] => Ok(0),
        [first @ b'1'..=b'9', rest @ ..] if rest.len() <= MOST_BEHIND_FIRST => digits(
            u32::from(*first - b'0'),
            rest,
        ),
        _ => Err(NO_NUMBER),
    }
}
