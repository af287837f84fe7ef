// The length of an entry at a stress.
ghost use Rattle.std.specs.Prelude.{◌≡◌, ℕ, ◌≤◌, true, T, IfSome};
ghost use Rattle.eurocode.specs.Sizes.{mm_of, fck_of};
ghost use Rattle.eurocode.specs.Tables.{diameters, tabled};
ghost use Rattle.curves.specs.Points.{entry_line, shared, on_curve, length_at, point_of, NoLess};
ghost use Rattle.curves.specs.declared.entries.Joint.{Joint};

use crate::entries::{Entry, FULL_STRESS, Joint};
use annex::Recommended;
use bars::{BarBook, BarLine};
use book::Book;
use eurocode::Situation;

// How many percent can be lapped.
const MOST_SHARE: u32 = 100;

fn is_shared(joint: Joint) -> bool
    ensures { result ≡ shared joint }
{
    match joint {
        Joint::Anchorage => true,
        Joint::Lap { share } => (1..=MOST_SHARE).contains(&share),
    }
}

// The bar line of an entry.
#[tactic(auto, using(eurocode::proofs::Rising::diameter_within))]
fn line_of(entry: Entry, joint: Joint, stress: u32) -> BarLine
    ensures { result ≡ entry_line joint (mm_of entry.diameter) (fck_of entry.strength) entry.bond stress }
{
    let (kind, share) = match joint {
        Joint::Anchorage => (1, 0),
        Joint::Lap { share } => (3, share),
    };
    let dia = entry.diameter.mm();
    BarLine {
        kind,
        dia,
        fck: entry.strength.fck(),
        fyk: 500,
        stress,
        bond: u32::from(entry.bond),
        shape: 1,
        gap: 2 * dia,
        side: dia,
        cover: dia,
        trans: 0,
        eff: 0,
        member: 1,
        weld: 0,
        press: 0,
        share,
        layers: 1,
        apart: 0,
        form: 0,
        agg: 16,
        mandrel: 0,
        pitch: 0,
        provided: 0,
    }
}

// The length of an entry at a stress, in mm, up to the full stress and for laps of 1 to 100 percent. It never falls as the
// stress, the share or the diameter grows, whatever their values.
#[tactic(auto, unfolding(crate::specs::Points::length_at))]
pub fn length(entry: Entry, joint: Joint, stress: u32) -> Option<u32>
    ensures value { result ≡ point_of joint (mm_of entry.diameter) (fck_of entry.strength) entry.bond stress }
    ensures rises { IfSome result (λ length. (more : Joint) (φ σ : ℕ) → NoLess more joint → T (tabled φ diameters) → mm_of entry.diameter ≤ φ → stress ≤ σ → on_curve more σ ≡ true → length ≤ length_at more φ (fck_of entry.strength) entry.bond σ) }
{
    if FULL_STRESS < stress || !is_shared(joint) {
        return None;
    }
    let book = BarBook { annex: Recommended };
    Some(book.figure(Situation::Persistent, &line_of(entry, joint, stress)))
}
