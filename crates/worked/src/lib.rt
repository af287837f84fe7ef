// Lines worked by hand: the definitions of the books answer to each what the table says.

#![tactic(auto)]

ghost use Rattle.std.specs.Prelude.{◌≡◌, length};
ghost use Rattle.worked.specs.Worked.{worked_lines, AllHold};

// How many lines were worked.
const LINES: usize = 12;

// The number of worked lines, all of which hold.
pub fn worked_lines() -> usize
    ensures count { result ≡ length worked_lines }
    ensures hold { AllHold }
{
    LINES
}
