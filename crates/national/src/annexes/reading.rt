// How an annex is read from a text.
ghost use Rattle.std.specs.Prelude.{◌≡◌, ℕ, List, [], ◌∷◌, IfErr, MatchResult};
ghost use Rattle.refusal.specs.Refusals.{on_ok};
ghost use Rattle.reader.specs.Headers.{numbers_in};
ghost use Rattle.reader.specs.Says.{Says};
ghost use Rattle.annex.specs.Numbers.{annex_names, numbers_of};
ghost use Rattle.national.specs.Annexes.{means_of};
ghost use Rattle.national.specs.Reading.{written_of, annex_of, Grants, BreaksFirst, Leaves};

use crate::annexes::NationalAnnex;
use crate::names::AnnexFields;
use annex::NUMBERS;
use reader::{Fields, Header};
use refusal::{Located, Refusal};
use text::Lexer;

// The one line of values stands below the names.
const VALUE_LINE: u32 = 2;

// The one line of values of an annex text.
fn value_line(text: &[u8]) -> Result<Fields, Refusal>
    ensures { on_ok numbers_in result ≡ written_of text.now }
{
    let mut lexer = Lexer::open(text)?;
    let header = Header::read(&AnnexFields, &mut lexer)?;
    if lexer.lines() != 1 {
        return Err(Refusal::AnnexLines);
    }
    header.line(&mut lexer).at_line(VALUE_LINE)
}

// The numbers on that line, by field: as many as an annex has, since each has its name.
fn written(text: &[u8]) -> Result<[u32; NUMBERS], Refusal>
    ensures { result ≡ written_of text.now }
{
    let line = value_line(text)?;
    let mut numbers = [0; NUMBERS];
    numbers.copy_from_slice(line.as_slice());
    Ok(numbers)
}

impl NationalAnnex {
    // Takes the numbers of an annex text. Nothing is stored before the last of them has passed.
    pub fn read(&mut self, text: &[u8]) -> Result<(), Refusal>
        ensures answers { result ≡ on_ok (λ _. tt) (annex_of text.now) }
        ensures leaves { Leaves (annex_of text.now) self.old self.new }
        ensures first { IfErr result (λ e. (ns : List ℕ) → Says annex_names text.now (ns ∷ []) → BreaksFirst ns e) }
        ensures granted { MatchResult result (λ _. (ns : List ℕ) × Grants text.now ns × (means_of self.new ≡ numbers_of ns)) (λ _. (ns : List ℕ) → Grants text.now ns → ⊥) }
    {
        let fields = written(text)?;
        self.set(&fields)
    }
}
