// A line of values: first their count, then each value in the text's order, then sorted by field.
ghost use Rattle.std.specs.Prelude.{◌≡◌, ◌≤◌, true, length, MatchResult, OnOk};
ghost use Rattle.refusal.specs.Refusals.{on_ok};
ghost use Rattle.text.specs.Tokens.{ahead, this_line, later_lines};
ghost use Rattle.reader.specs.Headers.{places_in, numbers_in};
ghost use Rattle.reader.specs.Lines.{values_of, by_field, line_of};
ghost use Rattle.reader.specs.Places.{all_within};

use crate::headers::{Fields, Header, MOST_FIELDS};
use refusal::{Located, Refusal};
use text::{Lexer, value};

// Reads as many values as `values` has room for. The places are counted beside the lexer, as those of the names are.
fn read_values(lexer: &mut Lexer, values: &mut [u32]) -> Result<(), Refusal>
    requires few { length values.old ≤ 30 }
    ensures values { on_ok (λ _. values.new) result ≡ values_of (length values.old) (this_line (ahead lexer.old)) }
    ensures rest { OnOk result (ahead lexer.new ≡ later_lines (ahead lexer.old)) }
{
    if !lexer.has_parts(values.len()) {
        return Err(Refusal::Count { line: 0 });
    }
    let mut place = 0;
    while let Some(part) = lexer.next_part() {
        values[place] = value(part).at_place(place as u32 + 1)?;
        place += 1;
    }
    Ok(())
}

// Sorts values by field, given the place of each field. By index: what `map` makes by a closure that holds the values could not
// be read off its calls, and nothing is known of what is written through an adapter of `iter_mut`.
fn sort_by_field(places: &[u32], values: &[u32], fields: &mut [u32])
    requires table { length fields.old ≡ length places.now }
    requires within { all_within (length values.now) places.now ≡ true }
    ensures { fields.new ≡ by_field places.now values.now }
{
    for (field, place) in places.iter().enumerate() {
        fields[field] = values[*place as usize - 1];
    }
}

impl Header {
    // Reads a line of values, and passes it; where it is refused, the lexer stays where it was.
    pub fn line(&self, lexer: &mut Lexer) -> Result<Fields, Refusal>
        ensures numbers { on_ok numbers_in result ≡ line_of (places_in self.now) (this_line (ahead lexer.old)) }
        ensures after { MatchResult result (λ _. ahead lexer.new ≡ later_lines (ahead lexer.old)) (λ _. lexer.new ≡ lexer.old) }
    {
        let count = self.fields;
        let mut behind = *lexer;
        let mut values = [0; MOST_FIELDS];
        let values = &mut values[0..count];
        read_values(&mut behind, values)?;
        let mut numbers = [0; MOST_FIELDS];
        sort_by_field(&self.places[0..count], values, &mut numbers[0..count]);
        *lexer = behind;
        Ok(Fields { numbers, count })
    }
}

impl Fields {
    pub fn as_slice(&self) -> &[u32]
        ensures { result.now ≡ numbers_in self.now }
    {
        &self.numbers[0..self.count]
    }
}
