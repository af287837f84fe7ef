// Tries bar lines, one to a line of standard input, and prints what is answered to each.
//
// A line is a title, a bar, the number of a situation, a bar, and the 23 numbers of a bar line with semicolons between
// them. It prints the title, a bar, and figure and mark, or the number and the field of the refusal. The annex is the
// recommended one.

#![tactic(auto)]

use annex::{Annex, Recommended};
use bars::BarBook;
use book::{Book, WrittenBook, judge};
use eurocode::Situation;
use refusal::Refusal;
use std::alloc::{AllocError, Global};
use std::io;
use std::io::{BufRead, BufReader};

// The numbers of a text with semicolons between them; what is no number counts as 0.
fn numbers_of(heap: Global, text: &str) -> Result<Vec<u32>, AllocError> {
    text.split(';')
        .map(|part| part.parse::<u32>().unwrap_or(0))
        .collect(heap)
}

// What the bar book answers to a line.
fn answer(heap: Global, situation: Situation, numbers: &[u32]) -> Result<String, AllocError> {
    let book = BarBook { annex: Recommended };
    let Some(line) = book.line(numbers) else {
        return format!(in heap; "no line");
    };
    match book.test(situation, &line) {
        Ok(()) => {
            let (figure, mark) = judge(&book, situation, &line);
            format!(in heap; "{figure};{mark}")
        }
        Err(fault) => {
            let (number, _, field) = Refusal::from(fault).numbers();
            format!(in heap; "refused {number};{field}")
        }
    }
}

// The answer to what stands behind a title.
fn tried(heap: Global, case: &str) -> Result<String, AllocError> {
    let Some((situation, numbers)) = case.split_once('|') else {
        return format!(in heap; "no case");
    };
    let Ok(situation) = Situation::try_from(situation.parse::<u32>().unwrap_or(0)) else {
        return format!(in heap; "no situation");
    };
    let numbers = numbers_of(heap, numbers)?;
    answer(heap, situation, numbers.as_slice())
}

fn main(rt: HostRuntime) -> io::Result<()> {
    let heap = rt.alloc();
    for line in BufReader::new(heap, rt.stdin())?.lines(heap) {
        let line = line?;
        let Some((title, case)) = line.as_str().split_once('|') else {
            continue;
        };
        let answer = tried(heap, case)?;
        println!(rt; "{title} | {answer}")?;
    }
    Ok(())
}
