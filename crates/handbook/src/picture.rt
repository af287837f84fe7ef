// The anchorage length over the stress, as an SVG.
ghost use Rattle.std.specs.Prelude.{◌≡◌, ◌+◌, ◌*◌, ◌/◌, ◌≤◌};

use crate::curve::{STEP, point};
use curves::{Bond, Entry, FULL_STRESS};
use std::io;

// The frame of the curve, in units of the picture.
const LEFT: u32 = 800;

const TOP: u32 = 600;

const WIDTH: u32 = 6400;

const HEIGHT: u32 = 3600;

// The stress at the right edge of the frame, in tenths of MPa, and how far apart its marks are.
const MOST_STRESS: u32 = 4500;

const STRESS_MARK: usize = 500;

// Marks of the lengths are so many mm apart, by the longest of them: about six marks to a picture.
fn mark_of(longest: u32) -> u32
    ensures { 50 ≤ result }
{
    match longest {
        0..=300 => 50,
        301..=700 => 100,
        701..=1400 => 200,
        1401..=3500 => 500,
        _ => 1000,
    }
}

// Where a stress lies from left to right.
fn across(stress: u32) -> u64
    ensures { result ≡ 800 + stress * 6400 / 4500 }
{
    u64::from(LEFT) + u64::from(stress) * u64::from(WIDTH) / u64::from(MOST_STRESS)
}

// Where a length lies from top to bottom, in a frame that ends at `most` mm.
fn down(length: u32, most: u32) -> u64 {
    let bottom = u64::from(TOP) + u64::from(HEIGHT);
    if most == 0 {
        return bottom;
    }
    bottom.saturating_sub(u64::from(length) * u64::from(HEIGHT) / u64::from(most))
}

fn print_head(rt: &HostRuntime, entry: Entry) -> io::Result<()> {
    let dia = entry.diameter.mm();
    let fck = entry.strength.fck();
    // The picture's own words, used once.
    let bond = match entry.bond {
        Bond::Good => "good bond",
        Bond::Other => "other bond",
    };
    println!(rt;
        "<svg xmlns=\"http://www.w3.org/2000/svg\" viewBox=\"0 0 7600 5000\" font-family=\"sans-serif\" font-size=\"130\">"
    )?;
    println!(rt; "<rect width=\"7600\" height=\"5000\" fill=\"white\"/>")?;
    println!(rt;
        "<text x=\"800\" y=\"260\" font-size=\"160\">Anchorage length of a straight bar in tension, {dia} mm, fck {fck} MPa, {bond}</text>"
    )?;
    println!(rt;
        "<text x=\"800\" y=\"460\" fill=\"#555\">recommended annex, persistent situation, fyk 500 MPa, gap 2 dia, side and cover dia</text>"
    )
}

// Lines across the frame at each mark of the stress.
fn print_stresses(rt: &HostRuntime) -> io::Result<()> {
    for mark in (0..=MOST_STRESS).step_by(STRESS_MARK) {
        let x = across(mark);
        let stress = mark / 10;
        println!(rt;
            "<path d=\"M{x} 600V4200\" stroke=\"#ddd\" stroke-width=\"10\"/><text x=\"{x}\" y=\"4400\" text-anchor=\"middle\">{stress}</text>"
        )?;
    }
    println!(rt; "<text x=\"4000\" y=\"4660\" text-anchor=\"middle\">stress of the bar, MPa</text>")
}

// Lines across the frame at each mark of the length.
fn print_lengths(rt: &HostRuntime, mark: u32, marks: u32) -> io::Result<()> {
    let most = mark.saturating_mul(marks);
    // The mark's number is what is multiplied.
    for i in 0..=marks {
        let length = mark.saturating_mul(i);
        let y = down(length, most);
        println!(rt;
            "<path d=\"M800 {y}H7200\" stroke=\"#ddd\" stroke-width=\"10\"/><text x=\"720\" y=\"{y}\" dy=\"40\" text-anchor=\"end\">{length}</text>"
        )?;
    }
    println!(rt;
        "<text transform=\"translate(240 2400) rotate(-90)\" text-anchor=\"middle\">length, mm</text>"
    )
}

// The curve through the points, and its end at the full stress.
fn print_curve(rt: &HostRuntime, entry: Entry, most: u32) -> io::Result<()> {
    print!(rt; "<polyline fill=\"none\" stroke=\"#06c\" stroke-width=\"20\" points=\"")?;
    for stress in (0..=FULL_STRESS).step_by(STEP) {
        let x = across(stress);
        let y = down(point(entry, stress), most);
        print!(rt; "{x},{y} ")?;
    }
    let x = across(FULL_STRESS);
    let longest = point(entry, FULL_STRESS);
    let y = down(longest, most);
    println!(rt; "{x},{y}\"/>")?;
    println!(rt;
        "<circle cx=\"{x}\" cy=\"{y}\" r=\"40\" fill=\"#06c\"/><text x=\"{x}\" y=\"{y}\" dx=\"-80\" dy=\"-80\" text-anchor=\"end\">{longest} mm at 434.7 MPa</text>"
    )
}

// Prints the curve with its marks.
pub(crate) fn print(rt: &HostRuntime, entry: Entry) -> io::Result<()> {
    let longest = point(entry, FULL_STRESS);
    let mark = mark_of(longest);
    let marks = longest / mark + 1;
    print_head(rt, entry)?;
    print_stresses(rt)?;
    print_lengths(rt, mark, marks)?;
    print_curve(rt, entry, mark.saturating_mul(marks))?;
    println!(rt;
        "<rect x=\"800\" y=\"600\" width=\"6400\" height=\"3600\" fill=\"none\" stroke=\"#333\" stroke-width=\"10\"/>"
    )?;
    println!(rt; "</svg>")
}
