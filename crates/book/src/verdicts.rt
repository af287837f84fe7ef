// The test of a line from its parts.
ghost use Rattle.std.specs.Prelude.{◌≡◌};
ghost use Rattle.book.specs.Fields.{tested_as};

use crate::faults::LineFault;

// The test of a line, by the first field that does not admit its number, counted from 1, whether the fields agree, and
// whether the stress can be borne. Three plain answers, so that the order of the faults is said once, for all books.
pub fn verdict(first_out: Option<u32>, agree: bool, borne: bool) -> Result<(), LineFault>
    ensures { result ≡ tested_as first_out agree borne }
{
    if let Some(field) = first_out {
        return Err(LineFault::Range { field });
    }
    if !agree {
        return Err(LineFault::Contradiction);
    }
    if !borne {
        return Err(LineFault::Overstressed);
    }
    Ok(())
}
