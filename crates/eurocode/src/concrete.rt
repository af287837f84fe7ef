// What the table says of a concrete's strength.
ghost use Rattle.std.specs.Prelude.{◌≡◌, ℕ, ◌<◌, T};
ghost use Rattle.eurocode.specs.Tables.{strengths, tabled, fctk_of, fctm_of};
ghost use Rattle.eurocode.specs.Sizes.{fck_of};

use crate::Strength;
use crate::tables::{FCTK, FCTM, STRENGTHS, TabledSize};

impl TabledSize for Strength {
    ghost table = { strengths };

    ghost number = { λ s. fck_of s };

    #[tactic(auto, unfolding(crate::specs::Tables::strengths))]
    fn table() -> &'static [u32] {
        &STRENGTHS
    }

    #[tactic(auto, unfolding(crate::specs::Tables::strengths, crate::specs::Sizes::fck_of))]
    fn at_row(row: usize) -> Option<Strength> {
        if row < STRENGTHS.len() {
            Some(Strength { row })
        } else {
            None
        }
    }
}

impl Strength {
    // In MPa.
    pub fn fck(self) -> u32
        ensures value { result ≡ fck_of self }
        ensures listed { T (tabled result strengths) }
    {
        STRENGTHS[self.row]
    }

    // The characteristic tensile strength, in tenths of MPa.
    pub fn fctk(self) -> u32
        ensures value { result ≡ fctk_of (fck_of self) }
        ensures stronger { (f : ℕ) → T (tabled f strengths) → fck_of self < f → result < fctk_of f }
    {
        FCTK[self.row]
    }

    // The mean tensile strength, in tenths of MPa.
    pub fn fctm(self) -> u32
        ensures value { result ≡ fctm_of (fck_of self) }
        ensures stronger { (f : ℕ) → T (tabled f strengths) → fck_of self < f → result < fctm_of f }
    {
        FCTM[self.row]
    }
}
