// The bar book over an annex.
ghost use Rattle.std.specs.Prelude.{◌≡◌};
ghost use Rattle.book.specs.Fields.{TestSays};
ghost use Rattle.bars.specs.Meaning.{bar_meaning};
ghost use Rattle.bars.specs.Tests.{in_range, agrees, borne, test_of};
ghost use Rattle.bars.specs.Ordering as law;

use crate::lines::BarLine;
use annex::Annex;
use book::{Book, LineFault};
use checklist::first_failed;
use eurocode::Situation;

// How many rules there are.
const RULES: u8 = 8;

#[derive(Drop)]
pub struct BarBook<A> {
    pub annex: A,
}

impl<A: Annex> Book for BarBook<A> {
    type Line = BarLine;

    ghost meaning = { λ b. bar_meaning (A.Annex.means b.annex) };

    ghost near = { λ b. law.near_law (A.Annex.means b.annex) (A.Annex.ranged b.annex) };

    ghost order = { λ b. law.order_law (A.Annex.means b.annex) (A.Annex.ranged b.annex) (A.Annex.rising b.annex) };

    fn rules(&self) -> u8 {
        RULES
    }

    #[tactic(auto, using(book::proofs::Testing::test_says))]
    fn test(&self, situation: Situation, line: &BarLine) -> Result<(), LineFault>
        ensures value { result ≡ test_of (A.Annex.means self.now.annex) situation line.now }
        ensures says { TestSays (in_range line.now) (agrees line.now) (borne (A.Annex.means self.now.annex) situation line.now) result }
    {
        self.test_line(situation, line)
    }

    fn meets(&self, situation: Situation, rule: u8, line: &BarLine) -> bool {
        // What is no rule is met by every line, and none is tested for it.
        if rule == 0 || RULES < rule {
            return true;
        }
        let Some(bar) = self.tested_bar(situation, line) else {
            return true;
        };
        bar.rules_met()[usize::from(rule) - 1]
    }

    #[tactic(auto, using(crate::proofs::Answering::figure_answer))]
    fn figure(&self, situation: Situation, line: &BarLine) -> u32 {
        let Some(bar) = self.tested_bar(situation, line) else {
            return 0;
        };
        bar.required_length()
    }

    // The line is tested once, and not for each rule.
    fn mark(&self, situation: Situation, line: &BarLine) -> u8 {
        let Some(bar) = self.tested_bar(situation, line) else {
            return 0;
        };
        first_failed(&bar.rules_met()).unwrap_or(0) as u8
    }
}
