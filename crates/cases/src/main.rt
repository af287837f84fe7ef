// Tries annex texts, one to a line of standard input, and prints what is answered to each.
//
// A line is a title, a bar and a text in which `\n` and `\r` stand for the bytes of those names, `\N` for a line of all
// names, `\V` for the line of recommended values, `\Z` for lines of zeros up to 65400 bytes, and `\A` for the letter a up
// to 65534 bytes. One annex reads all the texts, so that the numbers in force at the end of each line tell what was
// granted before. It prints the title; the refusal's three numbers or `granted`; how many lines of values there are, or
// again a refusal; and γc in the persistent situation and the multiple of 40 mm bars that are now in force.

#![tactic(auto)]

use annex::Annex;
use eurocode::{Diameter, Situation, TabledSize};
use national::{AnnexFields, NationalAnnex};
use reader::check;
use refusal::Refusal;
use std::alloc::{AllocError, Global};
use std::io;
use std::io::{BufRead, BufReader};

const NAMES: &[u8] =
    b"gc1;gc2;gs1;gs2;act;acc;k1;k2;km;ks;m6;m8;m10;m12;m14;m16;m20;m25;m28;m32;m40\n";

const VALUES: &[u8] = b"150;120;115;100;100;100;10;5;4;75;4;4;4;4;4;4;7;7;7;7;7\n";

const ZEROS: &[u8] = b"0;0;0;0;0;0;0;0;0;0;0;0;0;0;0;0;0;0;0;0;0\n";

// Adds a text over and over, until there are so many bytes.
fn fill(text: &mut Vec<u8>, more: &[u8], bytes: usize) -> Result<(), AllocError> {
    while text.len() < bytes && !more.is_empty() {
        text.extend_from_slice(more)?;
    }
    Ok(())
}

// Adds what stands for a letter behind a backslash.
fn expand(text: &mut Vec<u8>, letter: u8) -> Result<(), AllocError> {
    match letter {
        b'n' => text.extend_from_slice(b"\n"),
        b'r' => text.extend_from_slice(b"\r"),
        b'N' => text.extend_from_slice(NAMES),
        b'V' => text.extend_from_slice(VALUES),
        b'Z' => fill(text, ZEROS, 65400),
        b'A' => fill(text, b"a", 65534),
        _ => text.extend_from_slice(&[letter]),
    }
}

// The text that a line stands for.
fn text_of(heap: Global, line: &[u8]) -> Result<Vec<u8>, AllocError> {
    let mut text = Vec::new(heap);
    let mut bytes = line.iter();
    while let Some(b) = bytes.next() {
        if *b != b'\\' {
            text.extend_from_slice(&[*b])?;
        } else if let Some(letter) = bytes.next() {
            expand(&mut text, *letter)?;
        }
    }
    Ok(text)
}

// The multiple of the thickest bars.
fn thickest(annex: &NationalAnnex) -> u32 {
    Diameter::new(40).map_or(0, |diameter| annex.multiple(diameter))
}

// A refusal's three numbers, as this program writes them: of what a `Display` writes no contract could be stated.
fn refused(heap: Global, refusal: Refusal) -> Result<String, AllocError> {
    let (number, line, place) = refusal.numbers();
    format!(in heap; "{number};{line};{place}")
}

// What a new text is answered, and what is in force then.
fn answer(heap: Global, annex: &mut NationalAnnex, text: &[u8]) -> Result<String, AllocError> {
    let granted = match annex.read(text) {
        Ok(()) => format!(in heap; "granted")?,
        Err(refusal) => refused(heap, refusal)?,
    };
    let lines = match check(&AnnexFields, text) {
        Ok(lines) => format!(in heap; "{lines} lines")?,
        Err(refusal) => refused(heap, refusal)?,
    };
    let factor = annex.gc(Situation::Persistent);
    let multiple = thickest(annex);
    format!(in heap; "{granted} | {lines} | gc1 {factor}, m40 {multiple}")
}

fn main(rt: HostRuntime) -> io::Result<()> {
    let heap = rt.alloc();
    let mut annex = NationalAnnex::new();
    for line in BufReader::new(heap, rt.stdin())?.lines(heap) {
        let line = line?;
        let Some((title, text)) = line.as_str().split_once('|') else {
            continue;
        };
        let text = text_of(heap, text.as_bytes())?;
        let answer = answer(heap, &mut annex, text.as_slice())?;
        println!(rt; "{title} | {answer}")?;
    }
    Ok(())
}
