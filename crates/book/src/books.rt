// The questions that every book answers, and the judging of a line.
ghost use Rattle.std.specs.Prelude.{◌≡◌};
ghost use Rattle.book.specs.Meaning.{Meaning, NearLaw, OrderLaw, figure_of, meets_of, mark_of, judged, Judgement};

use crate::faults::LineFault;
use eurocode::Situation;

// A book of rules for lines of one kind. Rules count from 1. No question asks for the order or the exact requirement:
// these are what the answers are measured by. Each question is asked of a situation and a line; a pair of the two would have
// to be made at every call.
pub trait Book {
    type Line: Copy;

    ghost meaning: { Self → Meaning Self.Line };

    fn rules(&self) -> u8
        ensures { result ≡ (meaning self.now).rules };

    fn test(&self, situation: Situation, line: &Self::Line) -> Result<(), LineFault>
        ensures { result ≡ (meaning self.now).test situation line.now };

    // Whether a line meets a rule; one that fails its test meets them all.
    fn meets(&self, situation: Situation, rule: u8, line: &Self::Line) -> bool
        ensures { result ≡ meets_of (meaning self.now) situation rule line.now };

    // The figure of a line, in the book's unit; 0 for one that fails its test. A plain number, as a row holds it.
    fn figure(&self, situation: Situation, line: &Self::Line) -> u32
        ensures { result ≡ figure_of (meaning self.now) situation line.now };

    // 0 or the earliest broken rule: a plain number, as a row holds it. A book may answer by faster code of its own.
    fn mark(&self, situation: Situation, line: &Self::Line) -> u8
        ensures { result ≡ mark_of (meaning self.now) situation line.now }
    {
        // `find` would say it, but what it finds along a range is not proved yet.
        for rule in 1..=self.rules() {
            if !self.meets(situation, rule, line) {
                return rule;
            }
        }
        0
    }

    ghost near: { (b : Self) → NearLaw (meaning b) };

    ghost order: { (b : Self) → OrderLaw (meaning b) };
}

// The figure and the mark of a line, together.
pub fn judge<B: Book>(book: &B, situation: Situation, line: &B::Line) -> (u32, u8)
    ensures value { result ≡ judged (B.Book.meaning book.now) situation line.now }
    ensures promised { Judgement (B.Book.meaning book.now) situation line.now result }
{
    (book.figure(situation, line), book.mark(situation, line))
}
