// A bar line as the formulas see it.
ghost use Rattle.std.specs.Prelude.{◌≡◌, ◌&&◌, IfSome, is_ok, if◌then◌else◌, Some, None};
ghost use Rattle.std.specs.Option.{option_map};
ghost use Rattle.eurocode.specs.Tables.{diameters, strengths, tabled};
ghost use Rattle.bars.specs.Details.{shape_of, bond_of, layers_of, ties_of, detail_of, bar_of};
ghost use Rattle.bars.specs.Tests.{test_of};

use crate::books::BarBook;
use crate::lines::BarLine;
use crate::tested::TestedBar;
use anchorage::{Bar, Bond, Detail, Layers, Shape, Ties};
use annex::Annex;
use eurocode::{Diameter, Situation, Strength, TabledSize};

// The test of a line admits 1, straight, 2, a bend or hook, and 3, a loop.
// Any number has a kind here and in the next three: rules and formulas are stated of every line, admitted or not.
fn shape_of(number: u32) -> Shape
    ensures { result ≡ shape_of number }
{
    match number {
        1 => Shape::Straight,
        2 => Shape::Bent,
        _ => Shape::Loop,
    }
}

// The test of a line admits 1, good, and 2, other.
fn bond_of(number: u32) -> Bond
    ensures { result ≡ bond_of number }
{
    match number {
        0..=1 => Bond::Good,
        _ => Bond::Other,
    }
}

// The test of a line admits 1, one, and 2, several.
fn layers_of(number: u32) -> Layers
    ensures { result ≡ layers_of number }
{
    match number {
        0..=1 => Layers::One,
        _ => Layers::Several,
    }
}

// The test of a line admits 1, links or U bars, and 0, other.
fn ties_of(number: u32) -> Ties
    ensures { result ≡ ties_of number }
{
    match number {
        1 => Ties::Links,
        _ => Ties::Other,
    }
}

// Which of the standard's cases a line is.
fn detail_of(line: &BarLine) -> Detail
    ensures { result ≡ detail_of line.now }
{
    Detail {
        lap: 3 <= line.kind,
        tension: matches!(line.kind, 1 | 3),
        beam: line.member == 1,
        shape: shape_of(line.shape),
    }
}

impl<A: Annex> BarBook<A> {
    // The numbers of a line beside those of the tables and the annex, if diameter and strength are tabled.
    fn bar_of(&self, situation: Situation, line: &BarLine) -> Option<Bar>
        ensures { result ≡ (if tabled line.now.dia diameters && tabled line.now.fck strengths then Some (bar_of (A.means self.now.annex) situation line.now) else None) }
    {
        let diameter = Diameter::new(line.dia)?;
        let strength = Strength::new(line.fck)?;
        let annex = &self.annex;
        Some(Bar {
            dia: u64::from(line.dia),
            area: u64::from(diameter.area()),
            fck: u64::from(line.fck),
            fctk: u64::from(strength.fctk()),
            fyk: u64::from(line.fyk),
            stress: u64::from(line.stress),
            bond: bond_of(line.bond),
            gap: u64::from(line.gap),
            side: u64::from(line.side),
            cover: u64::from(line.cover),
            trans: u64::from(line.trans),
            eff: u64::from(line.eff),
            weld: u64::from(line.weld),
            press: u64::from(line.press),
            share: u64::from(line.share),
            layers: layers_of(line.layers),
            apart: u64::from(line.apart),
            ties: ties_of(line.form),
            agg: u64::from(line.agg),
            mandrel: u64::from(line.mandrel),
            pitch: u64::from(line.pitch),
            provided: u64::from(line.provided),
            gc: u64::from(annex.gc(situation)),
            gs: u64::from(annex.gs(situation)),
            act: u64::from(annex.act()),
            acc: u64::from(annex.acc()),
            k1: u64::from(annex.k1()),
            k2: u64::from(annex.k2()),
            multiple: u64::from(annex.multiple(diameter)),
        })
    }

    // The bar of a line that passes its test.
    pub(crate) fn tested_bar(&self, situation: Situation, line: &BarLine) -> Option<TestedBar>
        ensures bar { option_map (λ tested. tested.bar) result ≡ (if is_ok (test_of (A.means self.now.annex) situation line.now) then Some (bar_of (A.means self.now.annex) situation line.now) else None) }
        ensures detail { IfSome result (λ tested. tested.detail ≡ detail_of line.now) }
    {
        if self.test_line(situation, line).is_err() {
            return None;
        }
        let bar = self.bar_of(situation, line)?;
        Some(TestedBar {
            detail: detail_of(line),
            bar,
        })
    }
}
