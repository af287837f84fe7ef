// The factors on an anchorage or lap length, as numerators over a fixed denominator.
ghost use Rattle.std.specs.Prelude.{◌≡◌, ◌-◌, ◌*◌, ◌^◌, ◌<◌, ◌≤◌};
ghost use Rattle.measure.specs.Fractions.{◌over◌ as fraction};
ghost use Rattle.measure.specs.Rounding.{ths, rounded};
ghost use Rattle.anchorage.specs.Lengths.{η1, η2, twice_cd, factor, far, α1, ample, α2, by_surplus, α3, α4, α5, α6, α235};

use crate::tested::TestedBar;
use anchorage::{Bond, Shape};
use measure::div_up;

// 1 − n/d, clamped to 0.7 .. 1 and rounded up to millionths.
#[tactic(auto, using(anchorage::proofs::Computing::factor_code))]
fn clamped(n: u64, d: u64) -> u64
    requires some { 0 < d }
    requires few { d ≤ 10 ^ 12 }
    ensures value { result ≡ ths 1000000 (factor (fraction n d)) }
    ensures most { result ≤ 1000000 }
{
    div_up(1_000_000 * d.saturating_sub(n), d).max(700_000)
}

// What a has beyond b: their signed difference, as the formula has it, clamped at 0 before anything is rounded.
fn surplus(a: u64, b: u64) -> u64
    requires left { a ≤ 10 ^ 13 }
    requires right { b ≤ 10 ^ 13 }
    ensures { result ≡ a - b }
{
    let signed = a as i64 - b as i64;
    if signed < 0 { 0 } else { signed as u64 }
}

// The cover, in diameters, above which α2 falls.
fn ample_cover(shape: Shape) -> u64
    ensures { result ≡ ample shape }
{
    match shape {
        Shape::Straight => 1,
        Shape::Bent | Shape::Loop => 3,
    }
}

impl TestedBar {
    // η1, in tenths.
    pub(crate) fn eta1(&self) -> u64
        ensures { result ≡ (η1 self.now.bar).num }
    {
        match self.bar.bond {
            Bond::Good => 10,
            Bond::Other => 7,
        }
    }

    // η2, in hundredths.
    pub(crate) fn eta2(&self) -> u64
        ensures { result ≡ (η2 self.now.bar).num }
    {
        let dia = self.bar.dia;
        if dia <= 32 { 100 } else { 132 - dia }
    }

    // Twice the cover that counts.
    fn twice_cover(&self) -> u64
        ensures { result ≡ twice_cd self.now.detail.shape self.now.bar }
    {
        let b = &self.bar;
        match self.detail.shape {
            Shape::Straight => b.gap.min((2 * b.side).min(2 * b.cover)),
            Shape::Bent => b.gap.min(2 * b.side),
            Shape::Loop => 2 * b.cover,
        }
    }

    // Not straight, and cd above 3φ.
    fn is_far(&self) -> bool
        ensures { result ≡ far self.now.detail.shape self.now.bar }
    {
        !self.is_straight() && 6 * self.bar.dia < self.twice_cover()
    }

    // α1, in tenths.
    pub(crate) fn alpha1(&self) -> u64
        ensures value { result ≡ (α1 self.now.detail self.now.bar).num }
        ensures most { result ≤ 10 }
    {
        if self.detail.tension && self.is_far() {
            7
        } else {
            10
        }
    }

    // α2, in millionths.
    #[tactic(auto, using(anchorage::proofs::Computing::cover_code))]
    fn alpha2(&self) -> u64
        ensures value { result ≡ ths 1000000 (α2 self.now.detail.shape self.now.bar) }
        ensures most { result ≤ 1000000 }
    {
        let dia = self.bar.dia;
        let covered = 15 * self.twice_cover();
        let ample = 30 * ample_cover(self.detail.shape) * dia;
        clamped(covered.saturating_sub(ample), 200 * dia)
    }

    // α3 where the least transverse steel is `least` of `parts` parts of the bar's area, in millionths.
    #[tactic(auto, using(anchorage::proofs::Computing::surplus_code))]
    fn by_surplus(&self, least: u64, parts: u64) -> u64
        requires few { least ≤ 900000 }
        requires some { 0 < parts }
        requires fine { parts ≤ 600000 }
        ensures value { result ≡ ths 1000000 (by_surplus self.now.bar (fraction (self.now.bar.area * least) (10 * parts))) }
        ensures most { result ≤ 1000000 }
    {
        let b = &self.bar;
        let beyond = surplus(b.trans * parts, least * b.area);
        clamped(b.eff * beyond, 100 * b.area * parts)
    }

    // α3, in millionths.
    #[tactic(auto, using(anchorage::proofs::Computing::transverse_steel))]
    fn alpha3(&self) -> u64
        ensures value { result ≡ ths 1000000 (α3 self.now.detail self.now.bar) }
        ensures most { result ≤ 1000000 }
    {
        let b = &self.bar;
        if self.detail.lap {
            self.by_surplus(b.stress * b.gs, 1000 * b.fyk)
        } else if self.detail.beam {
            self.by_surplus(1, 4)
        } else {
            self.by_surplus(0, 1)
        }
    }

    // α4, in tenths.
    pub(crate) fn alpha4(&self) -> u64
        ensures value { result ≡ (α4 self.now.bar).num }
        ensures most { result ≤ 10 }
    {
        if 10 * self.bar.weld <= 6 * self.bar.dia {
            10
        } else {
            7
        }
    }

    // α5, in millionths.
    #[tactic(auto, using(anchorage::proofs::Computing::pressure_code))]
    fn alpha5(&self) -> u64
        ensures value { result ≡ ths 1000000 (α5 self.now.bar) }
        ensures most { result ≤ 1000000 }
    {
        clamped(4 * self.bar.press, 1000)
    }

    // α6, in millionths.
    #[tactic(auto, using(anchorage::proofs::Computing::share_lapped), unfolding(measure::specs::Rounding::ths, measure::specs::Rounding::ceiling))]
    pub(crate) fn alpha6(&self) -> u64
        ensures value { result ≡ ths 1000000 (α6 self.now.bar) }
        ensures most { result ≤ 1500000 }
    {
        let share = self.bar.share;
        match share {
            0..=25 => 1_000_000,
            26..=33 => div_up(1_000_000 * (800 + 15 * (share - 25)), 800),
            34..=50 => div_up(1_000_000 * (1955 + 25 * (share - 33)), 1700),
            _ => 1_500_000,
        }
    }

    // α2·α3·α5, at least 0.7, in millionths; 1 in compression.
    #[tactic(auto, using(anchorage::proofs::Computing::product))]
    pub(crate) fn alpha235(&self) -> u64
        ensures value { result ≡ (α235 rounded self.now.detail self.now.bar).num }
        ensures most { result ≤ 1000000 }
    {
        if self.detail.tension {
            let product = self.alpha2() * self.alpha3() * self.alpha5();
            div_up(product, 1_000_000_000_000).max(700_000)
        } else {
            1_000_000
        }
    }
}
