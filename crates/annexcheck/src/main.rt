// Checks a national annex: reads its text from standard input, and prints the numbers in force or why it is refused.

#![tactic(auto)]

use annexreport::{MOST_REPORT, report};
use std::io;
use std::io::{Read, Write};

// One byte more than a text may have, so that a longer one is told from the longest, and no endless input is read on.
const MOST_INPUT: u64 = 65536;

fn main(rt: HostRuntime) -> io::Result<()> {
    let mut text = Vec::new(rt.alloc());
    rt.stdin().take(MOST_INPUT).read_to_end(&mut text)?;
    let mut answer = [0; MOST_REPORT];
    let count = report(text.as_slice(), &mut answer);
    rt.stdout().write_all(&answer[0..count])
}
