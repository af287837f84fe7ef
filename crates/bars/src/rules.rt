// The eight rules of a bar.
ghost use Rattle.std.specs.Prelude.{◌≡◌};
ghost use Rattle.anchorage.specs.Rules.{rule1, rule2, rule3, rule4, rule5, rule6, rule7, rule8, tension_lap, rules as all_rules};

use crate::tested::TestedBar;
use anchorage::{Layers, Ties};

impl TestedBar {
    // The gap is at least k1·φ, the aggregate and k2, and 20.
    fn gap_suffices(&self) -> bool
        ensures { result ≡ rule1 self.now.bar }
    {
        let b = &self.bar;
        b.k1 * b.dia <= 10 * b.gap && b.agg + b.k2 <= b.gap && 20 <= b.gap
    }

    // The mandrel is at least the annex's multiple of φ.
    fn mandrel_suits_diameter(&self) -> bool
        ensures { result ≡ rule2 self.now.detail self.now.bar }
    {
        let b = &self.bar;
        self.is_straight() || b.multiple * b.dia <= b.mandrel
    }

    // The mandrel is wide enough for the concrete.
    #[tactic(auto, using(anchorage::proofs::Computing::mandrel_code), unfolding(anchorage::specs::Rules::rule3))]
    fn mandrel_suits_concrete(&self) -> bool
        ensures { result ≡ rule3 self.now.detail self.now.bar }
    {
        let b = &self.bar;
        let force = b.area * b.stress * b.gc * (4 * b.dia + b.pitch);
        let concrete = b.acc * b.fck * 200 * b.dia * b.pitch;
        self.is_straight() || force <= b.mandrel * concrete
    }

    fn is_tension_lap(&self) -> bool
        ensures { result ≡ tension_lap self.now.detail }
    {
        self.detail.lap && self.detail.tension
    }

    // At most half of the bars are lapped in several layers.
    fn share_suits_layers(&self) -> bool
        ensures { result ≡ rule4 self.now.detail self.now.bar }
    {
        let b = &self.bar;
        !(self.is_tension_lap() && b.layers == Layers::Several) || b.share <= 50
    }

    // Laps are clear of each other.
    fn laps_are_clear(&self) -> bool
        ensures { result ≡ rule5 self.now.detail self.now.bar }
    {
        let b = &self.bar;
        !self.detail.lap || (2 * b.dia <= b.apart && 20 <= b.apart)
    }

    // There is transverse steel as much as one bar.
    fn transverse_area_suffices(&self) -> bool
        ensures { result ≡ rule6 self.now.detail self.now.bar }
    {
        let b = &self.bar;
        !(self.is_tension_lap() && 20 <= b.dia && 25 <= b.share) || b.area <= b.trans
    }

    // The transverse steel is links or U bars.
    fn transverse_form_suits(&self) -> bool
        ensures { result ≡ rule7 self.now.detail self.now.bar }
    {
        let b = &self.bar;
        !(self.is_tension_lap() && 20 <= b.dia && 51 <= b.share && b.apart <= 10 * b.dia)
            || b.ties == Ties::Links
    }

    // The length provided is at least the figure.
    fn length_suffices(&self) -> bool
        ensures { result ≡ rule8 self.now.detail self.now.bar }
    {
        u64::from(self.required_length()) <= self.bar.provided
    }

    // Which rules are met, in their order.
    pub(crate) fn rules_met(&self) -> [bool; 8]
        ensures { result ≡ all_rules self.now.detail self.now.bar }
    {
        [
            self.gap_suffices(),
            self.mandrel_suits_diameter(),
            self.mandrel_suits_concrete(),
            self.share_suits_layers(),
            self.laps_are_clear(),
            self.transverse_area_suffices(),
            self.transverse_form_suits(),
            self.length_suffices(),
        ]
    }
}
