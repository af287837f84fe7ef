// A bar that the formulas may be asked of.
ghost use Rattle.std.specs.Prelude.{◌≡◌};
ghost use Rattle.anchorage.specs.Ranges.{Ranged};
ghost use Rattle.anchorage.specs.Rules.{straight};

use anchorage::{Bar, Detail, Shape};

// A bar whose numbers are in the ranges of a line that passed its test. The factors, the lengths and the rules are its
// methods: within these ranges none of them overflows.
#[derive(Clone, Copy)]
pub(crate) struct TestedBar {
    pub(crate) detail: Detail,
    pub(crate) bar: Bar,
    ghost ranged: { Ranged bar },
}

impl TestedBar {
    pub(crate) fn is_straight(&self) -> bool
        ensures { result ≡ straight self.now.detail.shape }
    {
        self.detail.shape == Shape::Straight
    }
}
