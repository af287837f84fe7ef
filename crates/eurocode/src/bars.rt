// What the table says of a bar's diameter.
ghost use Rattle.std.specs.Prelude.{◌≡◌, ℕ, ◌*◌, ◌<◌, T};
ghost use Rattle.eurocode.specs.Tables.{diameters, tabled, place, area_of};
ghost use Rattle.eurocode.specs.Sizes.{mm_of};

use crate::Diameter;
use crate::tables::{AREAS, DIAMETERS, TabledSize};

impl TabledSize for Diameter {
    ghost table = { diameters };

    ghost number = { λ d. mm_of d };

    #[tactic(auto, unfolding(crate::specs::Tables::diameters))]
    fn table() -> &'static [u32] {
        &DIAMETERS
    }

    #[tactic(auto, unfolding(crate::specs::Tables::diameters, crate::specs::Sizes::mm_of))]
    fn at_row(row: usize) -> Option<Diameter> {
        if row < DIAMETERS.len() {
            Some(Diameter { row })
        } else {
            None
        }
    }
}

impl Diameter {
    // In mm.
    pub fn mm(self) -> u32
        ensures value { result ≡ mm_of self }
        ensures listed { T (tabled result diameters) }
    {
        DIAMETERS[self.row]
    }

    // Its place among the tabled diameters, from 0.
    pub fn place(self) -> usize
        ensures value { result ≡ place (mm_of self) diameters }
        ensures within { result < 11 }
    {
        self.row
    }

    // Its area, in tenths of mm².
    pub fn area(self) -> u32
        ensures value { result ≡ area_of (mm_of self) }
        ensures thicker { (φ : ℕ) → T (tabled φ diameters) → mm_of self < φ → result < area_of φ }
        ensures slender { (φ : ℕ) → T (tabled φ diameters) → mm_of self < φ → result * φ < area_of φ * mm_of self }
    {
        AREAS[self.row]
    }
}
