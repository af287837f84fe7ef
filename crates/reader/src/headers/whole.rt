// A whole text.
ghost use Rattle.reader.specs.Says.{Checks};

use crate::headers::Header;
use crate::names::Named;
use refusal::{Located, Refusal};
use text::Lexer;

// How many lines of values a text has under these names, or what is refused of it first.
pub fn check<N: Named>(named: &N, text: &[u8]) -> Result<usize, Refusal>
    ensures { Checks (N.names named.now) text.now result }
{
    let mut lexer = Lexer::open(text)?;
    let header = Header::read(named, &mut lexer)?;
    let lines = lexer.lines();
    // The names are text line 1.
    for line in 0..lines {
        header.line(&mut lexer).at_line(line as u32 + 2)?;
    }
    Ok(lines)
}
