// Prints the numbers that an annex means, or why they were refused, to the start of a caller's buffer.

#![tactic(auto)]

ghost use Rattle.std.specs.Prelude.{◌≡◌, ◌≤◌, min, [], ◌∷◌, length, decimal};
ghost use Rattle.text.specs.Texts.{line_text};
ghost use Rattle.writer.specs.Wrote.{Wrote, laid_over};
ghost use Rattle.annex.specs.Numbers.{fields_of};
ghost use Rattle.national.specs.Reading.{annex_of};
ghost use Rattle.annexreport.specs.Report.{numbers_text, refusal_text, report_of, Reportable};

use annex::{Annex, NUMBERS, Numbers};
use national::{AnnexFields, NationalAnnex};
use refusal::Refusal;
use writer::{Ending, Writer};

// A buffer of so many bytes holds every report of an annex.
pub const MOST_REPORT: usize = 400;

// Reads an annex text, and lays the answer over the buffer's start, as much of it as fits; says how many bytes that are.
pub fn report(text: &[u8], buffer: &mut [u8]) -> usize
    ensures laid { buffer.new ≡ laid_over (report_of (annex_of text.now)) buffer.old }
    ensures counted { result ≡ min (length buffer.old) (length (report_of (annex_of text.now))) }
    ensures short { length (report_of (annex_of text.now)) ≤ 400 }
{
    let mut annex = NationalAnnex::new();
    let outcome = annex.read(text).map(|()| *annex.numbers());
    write_report(outcome, buffer)
}

// Lays the report of an outcome over the buffer's start.
fn write_report(outcome: Result<Numbers, Refusal>, buffer: &mut [u8]) -> usize
    ensures laid { buffer.new ≡ laid_over (report_of outcome) buffer.old }
    ensures counted { result ≡ min (length buffer.old) (length (report_of outcome)) }
    ensures short { Reportable outcome → length (report_of outcome) ≤ 400 }
{
    let mut w = Writer::new(buffer);
    write_outcome(&mut w, outcome);
    w.count()
}

fn write_outcome(w: &mut Writer, outcome: Result<Numbers, Refusal>)
    ensures wrote { Wrote (report_of outcome) w.old w.new }
    ensures short { Reportable outcome → length (report_of outcome) ≤ 400 }
{
    match outcome {
        Ok(numbers) => write_numbers(w, &numbers),
        Err(refusal) => write_refusal(w, refusal),
    }
}

// One line for each number.
fn write_numbers(w: &mut Writer, numbers: &Numbers)
    ensures { Wrote (numbers_text numbers.now) w.old w.new }
{
    for (field, n) in AnnexFields
        .fields()
        .iter()
        .zip(&<[u32; NUMBERS]>::from(*numbers))
    {
        write_line(w, field.name, *n);
    }
}

// A line of a name and a number.
fn write_line(w: &mut Writer, name: &[u8], n: u32)
    ensures { Wrote (line_text (name.now ∷ decimal n ∷ [])) w.old w.new }
{
    w.part(name, Ending::Part);
    w.part(n, Ending::Line);
}

// The names of a refusal's numbers, and the numbers below them.
fn write_refusal(w: &mut Writer, refusal: Refusal)
    ensures wrote { Wrote (refusal_text refusal) w.old w.new }
    ensures short { length (refusal_text refusal) ≤ 400 }
{
    let (number, line, place) = refusal.numbers();
    w.part::<&[u8]>(b"refused", Ending::Part);
    w.part::<&[u8]>(b"line", Ending::Part);
    w.part::<&[u8]>(b"place", Ending::Line);
    w.part(number, Ending::Part);
    w.part(line, Ending::Part);
    w.part(place, Ending::Line);
}
