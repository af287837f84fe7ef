// Why a line fails its book's test.
ghost use Rattle.std.specs.Prelude.{◌≡◌};
ghost use Rattle.book.specs.Faults.{refusal_of};

use refusal::Refusal;

#[derive(Clone, Copy, Debug, PartialEq, Eq)]
pub enum LineFault {
    // A value is outside its field's range or list; fields count from 1.
    Range { field: u32 },
    // Fields contradict each other.
    Contradiction,
    // The stress is above what the steel may bear.
    Overstressed,
}

// So that `?` hands a line's fault on as a refusal.
impl From<LineFault> for Refusal {
    ghost from_gives = { λ fault r. r ≡ refusal_of fault };

    fn from(fault: LineFault) -> Refusal {
        match fault {
            LineFault::Range { field } => Refusal::Range { line: 0, field },
            LineFault::Contradiction => Refusal::Contradiction { line: 0 },
            LineFault::Overstressed => Refusal::Overstressed { line: 0 },
        }
    }
}
