// Tests in a fixed order, and the first that fails.

#![tactic(auto)]

ghost use Rattle.std.specs.Prelude.{◌≡◌, ◌<◌, length, not, position, IfSome, MatchOption};
ghost use Rattle.checklist.specs.Firsts.{Passes, FailsFirst, first_failed, test_at};

// The place of the first test that failed, counted from 0.
fn place_of_first(tests: &[bool]) -> Option<usize>
    ensures value { result ≡ position (λ passed. not passed) tests.now }
    ensures within { IfSome result (λ place. place < length tests.now) }
{
    tests.iter().position(|passed| !*passed)
}

// The number of the first test that failed, counted from 1.
pub fn first_failed(tests: &[bool]) -> Option<usize>
    ensures value { result ≡ first_failed (test_at tests.now) 0 (length tests.now) }
    ensures first { MatchOption result (Passes (test_at tests.now) 0 (length tests.now)) (FailsFirst (test_at tests.now) 0 (length tests.now)) }
{
    place_of_first(tests).map(|place| place + 1)
}
