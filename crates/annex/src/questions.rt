// What the formulas ask of an annex.
ghost use Rattle.std.specs.Prelude.{◌≡◌};
ghost use Rattle.eurocode.specs.Sizes.{mm_of};
ghost use Rattle.annex.specs.declared.numbers.Numbers.{Numbers};
ghost use Rattle.annex.specs.Numbers.{fields_of, recommended, gc_of, gs_of, multiple_of};
ghost use Rattle.annex.specs.Laws.{Ranged, Rising};
ghost use Rattle.annex.specs.Keeping.{ranged_decides, recommended_ranged, rising_decides, recommended_rising};

use crate::numbers::{Numbers, RECOMMENDED};
use eurocode::{Diameter, Situation};

// An annex gives its numbers, and every question is answered by them.
pub trait Annex {
    ghost means: { Self → Numbers };

    fn numbers(&self) -> &Numbers
        ensures { result.now ≡ means self.now };

    // γc in a situation, in hundredths.
    fn gc(&self, situation: Situation) -> u32
        ensures { result ≡ gc_of (means self.now) situation }
    {
        self.numbers().gc.in_situation(situation)
    }

    // γs in a situation, in hundredths.
    fn gs(&self, situation: Situation) -> u32
        ensures { result ≡ gs_of (means self.now) situation }
    {
        self.numbers().gs.in_situation(situation)
    }

    // αct, in hundredths.
    fn act(&self) -> u32
        ensures { result ≡ (means self.now).act }
    {
        self.numbers().act
    }

    // αcc, in hundredths.
    fn acc(&self) -> u32
        ensures { result ≡ (means self.now).acc }
    {
        self.numbers().acc
    }

    // In tenths.
    fn k1(&self) -> u32
        ensures { result ≡ (means self.now).k1 }
    {
        self.numbers().k1
    }

    // In mm.
    fn k2(&self) -> u32
        ensures { result ≡ (means self.now).k2 }
    {
        self.numbers().k2
    }

    // In hundredths.
    fn km(&self) -> u32
        ensures { result ≡ (means self.now).km }
    {
        self.numbers().km
    }

    // In hundredths.
    fn ks(&self) -> u32
        ensures { result ≡ (means self.now).ks }
    {
        self.numbers().ks
    }

    // The least mandrel diameter of a bar, in bar diameters.
    fn multiple(&self, diameter: Diameter) -> u32
        ensures { result ≡ multiple_of (means self.now) (mm_of diameter) }
    {
        self.numbers().multiples[diameter.place()]
    }

    ghost ranged: { (a : Self) → Ranged (fields_of (means a)) };

    ghost rising: { (a : Self) → Rising (fields_of (means a)) };
}

// The annex of the recommended numbers.
#[derive(Clone, Copy)]
pub struct Recommended;

impl Annex for Recommended {
    ghost means = { λ _. recommended };

    ghost ranged = { λ a. (ranged_decides (fields_of recommended)).0 recommended_ranged };

    ghost rising = { λ a. (rising_decides (fields_of recommended)).0 recommended_rising };

    fn numbers(&self) -> &Numbers {
        &RECOMMENDED
    }
}
