// The lexer: cuts a text into tokens that are parts of the caller's bytes. It copies nothing.
ghost use Rattle.std.specs.Prelude.{◌≡◌, ℕ, ◌≤◌, true, List, ◌∷◌, length, position, IfOk, if◌then◌else◌, Some, Ok, Err, ◌==◌};
ghost use Rattle.std.specs.Option.{option_map};
ghost use Rattle.refusal.specs.declared.Refusal.TheVariants.{Text};
ghost use Rattle.refusal.specs.Refusals.{on_ok};
ghost use Rattle.std.specs.List.{AllByRecursion};
ghost use Rattle.text.specs.Texts.{Parts, is_text, parts_of, parts_by_line, line_feeds, text_of, PlainLine, Cuts};
ghost use Rattle.text.specs.Tokens.{ahead, lexeme, Gives, parts_behind, in_line, this_line, next_part, after_next, still_in_names};

use refusal::Refusal;

// The most bytes that a text may have.
const MOST_BYTES: usize = 65535;

// Whether these bytes may be read as a text at all.
fn is_text(bytes: &[u8]) -> bool
    ensures { result ≡ is_text bytes.now }
{
    match bytes {
        [.., b'\n'] => bytes.len() <= MOST_BYTES,
        _ => false,
    }
}

#[derive(Clone, Copy)]
pub enum Token<'t> {
    // A part of the first line.
    Name(&'t [u8]),
    // A part of a later line.
    Value(&'t [u8]),
    LineEnd,
}

// Where a lexer stands: before a line, before a part of one that begins these bytes, or behind its last part.
#[derive(Clone, Copy)]
enum Position<'t> {
    LineStart,
    Part(&'t [u8]),
    LineEnd,
}

#[derive(Clone, Copy)]
pub struct Lexer<'t> {
    // The lines that have not begun yet.
    rest: &'t [u8],
    position: Position<'t>,
    // Whether the first line is not yet passed; beside the position, since a lexer can stand anywhere in either part.
    in_names: bool,
}

// The place of the first `byte`: a line of the library's, as the row of a number in a table is in another crate.
fn place_of(byte: u8, bytes: &[u8]) -> Option<usize>
    ensures { result ≡ position (λ b. b == byte) bytes.now }
{
    bytes.iter().position(|b| *b == byte)
}

// The bytes before the first `at`, and those behind it.
fn cut<'t>(bytes: &'t [u8], at: u8) -> Option<(&'t [u8], &'t [u8])>
    ensures { Cuts at bytes.now result }
{
    let place = place_of(at, bytes)?;
    Some((&bytes[..place], &bytes[place + 1..]))
}

// The first part of what is left of a line, and the position behind it.
fn first_part<'t>(line: &'t [u8]) -> (&'t [u8], Position<'t>)
    ensures parts { parts_of line.now ≡ result.0.now ∷ parts_behind result.1 }
    ensures inside { in_line result.1 ≡ true }
{
    match cut(line, b';') {
        Some((part, more)) => (part, Position::Part(more)),
        None => (line, Position::LineEnd),
    }
}

// How many line feeds there are: a 0 or 1 is added for each byte, where `filter` and `count` would branch at each.
fn line_feeds(bytes: &[u8]) -> usize
    ensures { result ≡ line_feeds bytes.now }
{
    bytes.iter().map(|b| usize::from(*b == b'\n')).sum()
}

impl<'t> Lexer<'t> {
    // A lexer at the start of a text. What it gives, joined again, is the text; and what was joined comes apart again.
    pub fn open(text: &'t [u8]) -> Result<Lexer<'t>, Refusal>
        ensures ahead { on_ok ahead result ≡ (if is_text text.now then Ok (parts_by_line text.now) else Err Text) }
        ensures names { IfOk result (λ l. l.in_names ≡ true) }
        ensures joined { IfOk result (λ l. text_of (ahead l) ≡ text.now) }
        ensures apart { IfOk result (λ l. (lines : List Parts) → AllByRecursion PlainLine lines → text_of lines ≡ text.now → ahead l ≡ lines) }
    {
        if !is_text(text) {
            return Err(Refusal::Text);
        }
        Ok(Lexer {
            rest: text,
            position: Position::LineStart,
            in_names: true,
        })
    }

    // The next part of a line of which `line` is left.
    fn part(&mut self, line: &'t [u8]) -> Token<'t>
        ensures { Gives self.old.in_names (parts_of line.now ∷ parts_by_line self.old.rest.now) (Some (lexeme result)) self.new }
    {
        let (part, position) = first_part(line);
        self.position = position;
        if self.in_names {
            Token::Name(part)
        } else {
            Token::Value(part)
        }
    }

    // The next token, or nothing behind the last line.
    pub fn next(&mut self) -> Option<Token<'t>>
        ensures { Gives self.old.in_names (ahead self.old) (option_map lexeme result) self.new }
    {
        match self.position {
            Position::LineStart => {
                let (line, more) = cut(self.rest, b'\n')?;
                self.rest = more;
                Some(self.part(line))
            }
            Position::Part(line) => Some(self.part(line)),
            Position::LineEnd => {
                self.position = Position::LineStart;
                self.in_names = false;
                Some(Token::LineEnd)
            }
        }
    }

    // The next part of this line, or nothing at its end, which is then passed.
    pub fn next_part(&mut self) -> Option<&'t [u8]>
        ensures part { option_map (λ x. x.now) result ≡ next_part (ahead self.old) }
        ensures after { ahead self.new ≡ after_next (ahead self.old) }
        ensures names { self.new.in_names ≡ still_in_names self.old.in_names (ahead self.old) }
    {
        match self.next() {
            Some(Token::Name(part) | Token::Value(part)) => Some(part),
            Some(Token::LineEnd) | None => None,
        }
    }

    // Whether this line has just `count` parts left.
    pub fn has_parts(&self, count: usize) -> bool
        ensures { result ≡ (length (this_line (ahead self.now)) == count) }
    {
        let mut lexer = *self;
        // So many times, without an index.
        for _ in 0..count {
            if lexer.next_part().is_none() {
                return false;
            }
        }
        lexer.next_part().is_none()
    }

    // How many lines are left, this one among them.
    pub fn lines(&self) -> usize
        ensures { result ≡ length (ahead self.now) }
    {
        let lines = line_feeds(self.rest);
        match self.position {
            Position::LineStart => lines,
            Position::Part(_) | Position::LineEnd => lines + 1,
        }
    }
}
