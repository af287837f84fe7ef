// How an annex begins, and how its numbers are set.
ghost use Rattle.std.specs.Prelude.{◌≡◌, MatchResult};
ghost use Rattle.refusal.specs.Refusals.{on_ok};
ghost use Rattle.annex.specs.Numbers.{numbers_of, recommended, fields_of};
ghost use Rattle.national.specs.Acceptance.{accepted_of};
ghost use Rattle.national.specs.Annexes.{means_of};
ghost use Rattle.annex.specs.Keeping.{ranged_decides, rising_decides};

use crate::acceptance::accepted;
use crate::annexes::NationalAnnex;
use annex::{Annex, NUMBERS, Numbers, RECOMMENDED};
use refusal::Refusal;

impl NationalAnnex {
    // An annex of the recommended numbers.
    pub fn new() -> NationalAnnex
        ensures { means_of result ≡ recommended }
    {
        NationalAnnex {
            numbers: RECOMMENDED,
        }
    }

    // Takes the numbers that these fields list, or leaves the annex as it is.
    pub(crate) fn set(&mut self, fields: &[u32; NUMBERS]) -> Result<(), Refusal>
        ensures answers { result ≡ on_ok (λ _. tt) (accepted_of fields.now) }
        ensures leaves { MatchResult result (λ _. means_of self.new ≡ numbers_of fields.now) (λ _. self.new ≡ self.old) }
    {
        self.numbers = accepted(fields)?;
        Ok(())
    }
}

impl Annex for NationalAnnex {
    ghost means = { λ a. means_of a };

    ghost ranged = { λ a. (ranged_decides (fields_of a.numbers)).0 a.ranged };

    ghost rising = { λ a. (rising_decides (fields_of a.numbers)).0 a.rising };

    fn numbers(&self) -> &Numbers {
        &self.numbers
    }
}
