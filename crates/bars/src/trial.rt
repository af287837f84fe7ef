// The test of a bar line: its fields in order, whether they agree, and whether the stress can be borne.
ghost use Rattle.std.specs.Prelude.{◌≡◌, length};
ghost use Rattle.checklist.specs.Firsts.{first_failed, test_at};
ghost use Rattle.bars.specs.Tests.{in_range, agrees, borne, test_of};

use crate::books::BarBook;
use crate::lines::BarLine;
use annex::Annex;
use book::{LineFault, verdict};
use checklist::first_failed;
use eurocode::Situation;

// Whether the fields agree: a straight bar has neither mandrel nor pitch, any other has both; an anchorage has no share,
// no distance between laps and no form of links, and a lap has a share and no welded bar.
fn fields_agree(line: &BarLine) -> bool
    ensures { result ≡ agrees line.now }
{
    let bend = if line.shape == 1 {
        line.mandrel == 0 && line.pitch == 0
    } else {
        1 <= line.mandrel && 1 <= line.pitch
    };
    let lap = if line.kind <= 2 {
        line.share == 0 && line.apart == 0 && line.form == 0
    } else {
        1 <= line.share && line.weld == 0
    };
    bend && lap
}

impl<A: Annex> BarBook<A> {
    // The first field that does not admit its number, counted from 1; there are few, so it fits.
    fn first_out(&self, line: &BarLine) -> Option<u32>
        ensures { result ≡ first_failed (test_at (in_range line.now)) 0 (length (in_range line.now)) }
    {
        first_failed(&self.admitted(line)).map(|field| field as u32)
    }

    // Whether the stress is at most fyk/γs.
    fn is_borne(&self, situation: Situation, line: &BarLine) -> bool
        ensures { result ≡ borne (A.means self.now.annex) situation line.now }
    {
        let stress = u64::from(line.stress);
        let strength = u64::from(line.fyk);
        stress * u64::from(self.annex.gs(situation)) <= 1000 * strength
    }

    // The test of a line.
    pub(crate) fn test_line(&self, situation: Situation, line: &BarLine) -> Result<(), LineFault>
        ensures { result ≡ test_of (A.means self.now.annex) situation line.now }
    {
        verdict(
            self.first_out(line),
            fields_agree(line),
            self.is_borne(situation, line),
        )
    }
}
