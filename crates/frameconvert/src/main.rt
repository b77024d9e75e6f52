// frameconvert: reads a board sheet from standard input and prints it as one for readers that lack working memory (Order 7).
#![tactic(auto)]

use console::{argument_count, convert, print_text, read_descriptor, report};
use std::io::Result;

// Prints the converted sheet, or the refusal.
fn print_converted(rt: &impl Print, sheet: &[u8]) -> Result<()> {
    let mut out = io::large_buffer();
    let written = convert(sheet, &mut out);
    print_text(rt, written, &out)
}

// The buffer for the sheet is longer than a text may be, so input that fills it is refused as too long.
fn main(rt: HostRuntime) {
    let err = rt.stderr();
    if 1 < argument_count(&rt) {
        let _ = println!(err; "usage: frameconvert < SHEET");
        return;
    }
    let mut sheet = io::large_buffer();
    let Ok(n) = read_descriptor(
        &err,
        b"frameconvert",
        b"standard input",
        &mut rt.stdin(),
        &mut sheet,
    ) else {
        return;
    };
    if let Err(e) = print_converted(&rt, &sheet[..n]) {
        report(&err, b"frameconvert", b"standard output", e);
    }
}
