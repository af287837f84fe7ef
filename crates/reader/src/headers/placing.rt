// The names in a text's first line, and the place of each.
ghost use Rattle.std.specs.Prelude.{◌≡◌, length, MatchResult, OnOk};
ghost use Rattle.refusal.specs.Refusals.{on_ok};
ghost use Rattle.text.specs.Tokens.{ahead, this_line, later_lines};
ghost use Rattle.reader.specs.Headers.{places_in};
ghost use Rattle.reader.specs.Names.{Finds, all_placed, places_of};

use crate::headers::{Header, MOST_FIELDS};
use crate::names::Named;
use refusal::Refusal;
use text::Lexer;

// The field of this name. By index, as `Named` tells names: a closure that holds what has them could not be read off its calls.
fn find<N: Named>(named: &N, name: &[u8]) -> Option<usize>
    ensures { Finds name.now (N.names named.now) result }
{
    for field in 0..named.field_count() {
        if named.field_name(field) == name {
            return Some(field);
        }
    }
    None
}

// Writes down the place of each field, if each has one. By index, as the values of a line are sorted.
fn all_placed(found: &[Option<u32>], places: &mut [u32]) -> Result<(), Refusal>
    requires table { length places.old ≡ length found.now }
    ensures { on_ok (λ _. places.new) result ≡ all_placed found.now }
{
    for (field, place) in found.iter().enumerate() {
        places[field] = place.ok_or(Refusal::Missing)?;
    }
    Ok(())
}

// Passes the first line, and writes down for each field the place at which its name stands. The places are counted beside
// the lexer, which ends the line: an iterator over its parts would have to hold it, and pass the line's end unseen.
fn place_names<N: Named>(named: &N, lexer: &mut Lexer, places: &mut [u32]) -> Result<(), Refusal>
    requires table { length places.old ≡ length (N.names named.now) }
    ensures places { on_ok (λ _. places.new) result ≡ places_of (N.names named.now) (this_line (ahead lexer.old)) }
    ensures rest { OnOk result (ahead lexer.new ≡ later_lines (ahead lexer.old)) }
{
    let mut found = [None; MOST_FIELDS];
    let found = &mut found[0..places.len()];
    let mut place = 0;
    while let Some(name) = lexer.next_part() {
        place += 1;
        let Some(field) = find(named, name) else {
            return Err(Refusal::Name { place });
        };
        if found[field].is_some() {
            return Err(Refusal::Name { place });
        }
        found[field] = Some(place);
    }
    all_placed(found, places)
}

impl Header {
    // Reads the first line of a text, and passes it; where it is refused, the lexer stays where it was.
    pub fn read<N: Named>(named: &N, lexer: &mut Lexer) -> Result<Header, Refusal>
        ensures places { on_ok places_in result ≡ places_of (N.names named.now) (this_line (ahead lexer.old)) }
        ensures after { MatchResult result (λ _. ahead lexer.new ≡ later_lines (ahead lexer.old)) (λ _. lexer.new ≡ lexer.old) }
    {
        let fields = named.field_count();
        let mut places = [0; MOST_FIELDS];
        let mut behind = *lexer;
        place_names(named, &mut behind, &mut places[0..fields])?;
        *lexer = behind;
        Ok(Header { places, fields })
    }
}
