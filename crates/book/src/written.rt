// Books whose lines are written as numbers under names.
ghost use Rattle.std.specs.Prelude.{◌≡◌, ℕ, List, length, if◌then◌else◌, Some, None, nat_eq, slice_index};
ghost use Rattle.std.specs.Option.{option_map};
ghost use Rattle.book.specs.Written.{Lists};

use crate::books::Book;
use reader::Named;

// A book whose fields have names. A line is the list of its numbers, one for each name, in the order of the names.
pub trait WrittenBook: Book + Named {
    ghost numbers: { Self → Self.Line → List ℕ };

    // The number of a field, counted from 0; 0 past the last, so that no question of a book is refused.
    fn number(&self, line: &Self::Line, field: usize) -> u32
        ensures { result ≡ slice_index (numbers self.now line.now) field };

    // The line of these numbers, if they are as many as the names.
    fn line(&self, fields: &[u32]) -> Option<Self::Line>
        ensures { option_map (numbers self.now) result ≡ (if nat_eq (length fields.now) (length (Self.names self.now)) then Some fields.now else None) };

    ghost listed: { (b : Self) → Lists (length (Self.names b)) (numbers b) };
}
