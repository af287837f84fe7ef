// An annex that is set, by numbers that keep both laws.
ghost use Rattle.std.specs.Prelude.{◌≡◌, true};
ghost use Rattle.annex.specs.Numbers.{fields_of};
ghost use Rattle.annex.specs.Laws.{is_ranged, is_rising};

use annex::Numbers;

mod reading;
mod setting;

// The numbers keep their ranges, and the multiples never fall.
#[derive(Clone, Copy)]
pub struct NationalAnnex {
    numbers: Numbers,
    ghost ranged: { is_ranged (fields_of numbers) ≡ true },
    ghost rising: { is_rising (fields_of numbers) ≡ true },
}
