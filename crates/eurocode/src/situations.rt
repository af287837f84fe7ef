// The numbers of the design situations.
ghost use Rattle.std.specs.Prelude.{◌≡◌, Some};
ghost use Rattle.eurocode.specs.Situations.{number_of, situation_of, situation_numbered};

use crate::Situation;

// A number that no design situation bears. A type for each conversion: one for all would take what was sought for a
// parameter that it does not hold.
#[derive(Clone, Copy, Debug, PartialEq, Eq)]
pub struct UnknownSituation {
    pub number: u32,
}

// 1 is persistent, 2 accidental.
impl TryFrom<u32> for Situation {
    type Error = UnknownSituation;

    ghost try_from_gives = { λ number situation. situation ≡ situation_numbered number };

    fn try_from(number: u32) -> Result<Situation, UnknownSituation> {
        match number {
            1 => Ok(Situation::Persistent),
            2 => Ok(Situation::Accidental),
            _ => Err(UnknownSituation { number }),
        }
    }
}

impl From<Situation> for u32 {
    ghost from_gives = { λ s n. (n ≡ number_of s) × (situation_of n ≡ Some s) };

    fn from(situation: Situation) -> u32 {
        match situation {
            Situation::Persistent => 1,
            Situation::Accidental => 2,
        }
    }
}
