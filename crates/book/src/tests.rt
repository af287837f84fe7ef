// A book without rules: its mark is always 0.
ghost use Rattle.std.specs.Prelude.{◌≡◌};
ghost use Rattle.book.specs.Plain.{plain};
ghost use Rattle.book.specs.Plainness.{plain_near, plain_order};

use crate::books::{Book, judge};
use crate::faults::LineFault;
use eurocode::Situation;

struct Lengths;

impl Book for Lengths {
    type Line = u32;

    ghost meaning = { λ _. plain };

    ghost near = { λ _. plain_near };

    ghost order = { λ _. plain_order };

    fn rules(&self) -> u8 {
        0
    }

    fn test(&self, _situation: Situation, _line: &u32) -> Result<(), LineFault> {
        Ok(())
    }

    fn meets(&self, _situation: Situation, _rule: u8, _line: &u32) -> bool {
        true
    }

    fn figure(&self, _situation: Situation, line: &u32) -> u32 {
        *line
    }
}

// Proved for every length.
fn judged_plainly(length: u32) -> (u32, u8)
    ensures { result ≡ (length, 0) }
{
    judge(&Lengths {}, Situation::Accidental, &length)
}

#[test]
fn no_rules_and_no_mark(rt: HostRuntime) {
    let (figure, mark) = judged_plainly(7);
    assert_eq!(rt; figure, 7);
    assert_eq!(rt; mark, 0);
}
