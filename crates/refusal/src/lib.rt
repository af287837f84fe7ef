// Why a call is refused. Each case has one number that never changes, and two more beside it that say where.

#![tactic(auto)]

ghost use Rattle.std.specs.Prelude.{◌≡◌, ℕ};
ghost use Rattle.refusal.specs.Refusals.{numbers_of, at_line, at_place, on_err};

// A text line counts from 1, the names being line 1, and is 0 outside a text, which is how it is told; places and fields
// count from 1.
#[derive(Clone, Copy, Debug, PartialEq, Eq)]
pub enum Refusal {
    // The rows for a sheet are none, or more than 256.
    Rows,
    // No line is held at that place.
    Place,
    // The situation is neither 1 nor 2.
    Situation,
    // A value is outside its field's range or list.
    Range { line: u32, field: u32 },
    // The fields of a line contradict each other.
    Contradiction { line: u32 },
    // The stress is above what the steel may carry.
    Overstressed { line: u32 },
    // In that situation the line held at this place would fail its test.
    Unfit { place: u32 },
    // Too few rows are free.
    Full,
    // A text is empty, too long, or its last byte is no line feed.
    Text,
    // A name is unknown, or stands for the second time.
    Name { place: u32 },
    // A name is missing.
    Missing,
    // A value is not written as a number.
    Form { line: u32, place: u32 },
    // A line has too few or too many values.
    Count { line: u32 },
    // A number of an annex is out of its range.
    AnnexRange { field: u32 },
    // A mandrel multiple is smaller than the one before it.
    Falling { field: u32 },
    // An annex text has no line of values, or several.
    AnnexLines,
    // The buffer for a listing is too short.
    Buffer { needed: u32 },
}

impl Refusal {
    // The refusal's number and the two numbers beside it.
    pub fn numbers(self) -> (u32, u32, u32)
        ensures { result ≡ numbers_of self }
    {
        match self {
            Refusal::Rows => (1, 0, 0),
            Refusal::Place => (2, 0, 0),
            Refusal::Situation => (3, 0, 0),
            Refusal::Range { line, field } => (4, line, field),
            Refusal::Contradiction { line } => (5, line, 0),
            Refusal::Overstressed { line } => (6, line, 0),
            Refusal::Unfit { place } => (7, 0, place),
            Refusal::Full => (8, 0, 0),
            Refusal::Text => (9, 0, 0),
            Refusal::Name { place } => (10, 1, place),
            Refusal::Missing => (10, 1, 0),
            Refusal::Form { line, place } => (11, line, place),
            Refusal::Count { line } => (12, line, 0),
            Refusal::AnnexRange { field } => (13, 2, field),
            Refusal::Falling { field } => (14, 2, field),
            Refusal::AnnexLines => (15, 0, 0),
            Refusal::Buffer { needed } => (16, 0, needed),
        }
    }

    // The same refusal, met in this text line. Not one function with the next: they tell different refusals something.
    pub fn at_line(self, line: u32) -> Refusal
        ensures { result ≡ at_line line self }
    {
        match self {
            Refusal::Range { line: _, field } => Refusal::Range { line, field },
            Refusal::Contradiction { line: _ } => Refusal::Contradiction { line },
            Refusal::Overstressed { line: _ } => Refusal::Overstressed { line },
            Refusal::Form { line: _, place } => Refusal::Form { line, place },
            Refusal::Count { line: _ } => Refusal::Count { line },
            Refusal::Rows
            | Refusal::Place
            | Refusal::Situation
            | Refusal::Unfit { .. }
            | Refusal::Full
            | Refusal::Text
            | Refusal::Name { .. }
            | Refusal::Missing
            | Refusal::AnnexRange { .. }
            | Refusal::Falling { .. }
            | Refusal::AnnexLines
            | Refusal::Buffer { .. } => self,
        }
    }

    // The same refusal, met at this place of a text line.
    pub fn at_place(self, place: u32) -> Refusal
        ensures { result ≡ at_place place self }
    {
        match self {
            Refusal::Form { line, place: _ } => Refusal::Form { line, place },
            Refusal::Rows
            | Refusal::Place
            | Refusal::Situation
            | Refusal::Range { .. }
            | Refusal::Contradiction { .. }
            | Refusal::Overstressed { .. }
            | Refusal::Unfit { .. }
            | Refusal::Full
            | Refusal::Text
            | Refusal::Name { .. }
            | Refusal::Missing
            | Refusal::Count { .. }
            | Refusal::AnnexRange { .. }
            | Refusal::Falling { .. }
            | Refusal::AnnexLines
            | Refusal::Buffer { .. } => self,
        }
    }
}

// What may be a refusal, and is then told where it was met on its way up through `?`.
pub trait Located: Sized {
    ghost lined: { ℕ → Self → Self };

    ghost placed: { ℕ → Self → Self };

    fn at_line(self, line: u32) -> Self
        ensures { result ≡ lined line self };

    fn at_place(self, place: u32) -> Self
        ensures { result ≡ placed place self };
}

impl<T> Located for Result<T, Refusal> {
    ghost lined = { λ n r. on_err (at_line n) r };

    ghost placed = { λ n r. on_err (at_place n) r };

    fn at_line(self, line: u32) -> Result<T, Refusal> {
        self.map_err(|refusal| refusal.at_line(line))
    }

    fn at_place(self, place: u32) -> Result<T, Refusal> {
        self.map_err(|refusal| refusal.at_place(place))
    }
}
