// Reads relations as text from standard input, one after another, and prints a line for each: the right members of its
// first perfect matching, or `none`. Where the input is not such text it prints `malformed` and stops.
#![tactic(auto)]

use matchingtext::{TextTable, first_sheet, solve};
use std::alloc::{AllocError, Global};
use std::fmt::Write;
use std::io;
use std::io::Read;

// The numbers with one space between.
fn spaced(heap: Global, numbers: &[usize]) -> Result<String, AllocError> {
    let mut line = String::new(heap);
    for number in numbers {
        if !line.is_empty() {
            line.push_str(" ")?;
        }
        write!(line, "{number}")?;
    }
    Ok(line)
}

// The line for a relation.
fn answer(heap: Global, table: &TextTable) -> Result<String, AllocError> {
    match solve(heap, table)? {
        Some(mate) => spaced(heap, &mate),
        None => String::from_str(heap, "none"),
    }
}

// A line for each relation of the text.
fn run(rt: HostRuntime, text: &[u8]) -> io::Result<()> {
    let mut rest = text;
    while !rest.is_empty() {
        let Some(sheet) = first_sheet(rest) else {
            return println!(rt; "malformed");
        };
        rt.println(answer(rt.alloc(), &sheet.table)?)?;
        rest = sheet.rest;
    }
    Ok(())
}

fn main(rt: HostRuntime) -> io::Result<()> {
    let mut text = Vec::new(rt.alloc());
    rt.stdin().read_to_end(&mut text)?;
    // the last line may lack its newline
    if !text.is_empty() && text.last() != Some(&b'\n') {
        text.push(b'\n')?;
    }
    run(rt, &text)
}
