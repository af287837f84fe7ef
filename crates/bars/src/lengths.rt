// The length that an anchorage or a lap needs.
ghost use Rattle.std.specs.Prelude.{◌≡◌, ◌≤◌, if◌then◌else◌};
ghost use Rattle.measure.specs.Rounding.{ths, rounded};
ghost use Rattle.anchorage.specs.Lengths.{lb, lbd, l0, figure};

use crate::tested::TestedBar;
use measure::div_up;

impl TestedBar {
    // The basic length, in hundredths of mm.
    #[tactic(auto, using(anchorage::proofs::Computing::basic_length))]
    fn basic_length(&self) -> u64
        ensures value { result ≡ ths 100 (lb self.now.bar) }
        ensures most { result ≤ 941100 }
    {
        let b = &self.bar;
        let pull = b.dia * b.stress * b.gc;
        let bond = self.eta1() * self.eta2() * b.act * b.fctk;
        div_up(100_000 * pull, 9 * bond)
    }

    // The least part of the basic length that an anchorage keeps, in tenths.
    fn least_part(&self) -> u64
        ensures { result ≡ (if self.now.detail.tension then 3 else 6) }
    {
        if self.detail.tension { 3 } else { 6 }
    }

    // The length of an anchorage, in mm.
    #[tactic(auto, using(anchorage::proofs::Computing::lbd_code))]
    fn anchorage_length(&self) -> u64
        ensures { result ≡ ths 1 (lbd rounded self.now.detail self.now.bar) }
    {
        let basic = self.basic_length();
        let full = self.alpha1() * self.alpha235() * self.alpha4() * basic;
        div_up(full, 10_000_000_000)
            .max(div_up(self.least_part() * basic, 1000))
            .max(10 * self.bar.dia)
            .max(100)
    }

    // The length of a lap, in mm.
    #[tactic(auto, using(anchorage::proofs::Computing::lap_length))]
    fn lap_length(&self) -> u64
        ensures { result ≡ ths 1 (l0 rounded self.now.detail self.now.bar) }
    {
        let basic = self.basic_length();
        let lapped = self.alpha6();
        let all = div_up(self.alpha235() * lapped, 1_000_000);
        let full = self.alpha1() * all * basic;
        div_up(full, 1_000_000_000)
            .max(div_up(3 * lapped * basic, 1_000_000_000))
            .max(15 * self.bar.dia)
            .max(200)
    }

    // The figure, in mm. Both lengths fit: they are proved to, and `try_from` would add a failure that cannot happen.
    #[tactic(auto, using(anchorage::proofs::Computing::longest), unfolding(anchorage::specs::Lengths::figure, anchorage::specs::Lengths::required))]
    pub(crate) fn required_length(&self) -> u32
        ensures { result ≡ figure self.now.detail self.now.bar }
    {
        if self.detail.lap {
            self.lap_length() as u32
        } else {
            self.anchorage_length() as u32
        }
    }
}
