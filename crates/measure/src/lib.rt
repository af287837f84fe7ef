// Rounding upward. The fractions of the formulas, their order and the calculus of rounding errors are definitions and
// lemmas alone: the code works on numerators over common denominators.

#![tactic(auto)]

ghost use Rattle.std.specs.Prelude.{◌≡◌, ◌<◌};
ghost use Rattle.measure.specs.Rounding.{Least, ceiling};

// n/d rounded up to a whole number; 0 where d is 0, so that every fraction has an answer.
pub fn div_up(n: u64, d: u64) -> u64
    ensures value { result ≡ ceiling n d }
    ensures least { 0 < d → Least n d result }
{
    if d == 0 { 0 } else { n.div_ceil(d) }
}
