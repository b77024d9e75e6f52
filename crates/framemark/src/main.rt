// framemark SHEET PAPER ..: marks the timetable of each file PAPER on the board sheet of the file SHEET.
#![tactic(auto)]

use console::{
    argument_count, print_marks, print_verdict, read_argument, read_file, read_named, report,
    write_escaped,
};
use std::io::Result;
use std::rt::{Env, Files};

// Prints a paper's name and its verdict on one line: one line for each paper, also where it is the sheet that is refused.
fn print_named_marks(rt: &impl Print, name: &[u8], sheet: &[u8], paper: &[u8]) -> Result<()> {
    write_escaped(rt, name)?;
    print!(rt; " ")?;
    print_verdict(rt, frames::mark(sheet, paper))
}

// Marks the paper that argument `i` names, one of several or the only one. Fails where what it prints cannot be written: a paper that
// cannot be read prints nothing here. The buffers for texts are longer than a text may be, so a file that fills one is refused as too long.
fn mark_argument(
    rt: &(impl Env + Files + Print),
    err: &impl Print,
    sheet: &[u8],
    i: usize,
    several: bool,
) -> Result<()> {
    let mut path = io::buffer();
    let Ok(n) = read_argument(rt, err, b"framemark", i, &mut path) else {
        return Ok(());
    };
    let name = &path[..n];
    let mut text = io::large_buffer();
    let Ok(m) = read_file(rt, err, b"framemark", name, &mut text) else {
        return Ok(());
    };
    let paper = &text[..m];
    if several {
        return print_named_marks(rt, name, sheet, paper);
    }
    print_marks(rt, sheet, paper)
}

// Marks the papers of the arguments from 2 to the last. Stops when a verdict cannot be written.
fn mark_arguments(rt: &(impl Env + Files + Print), err: &impl Print, sheet: &[u8], count: usize) {
    for i in 2..count {
        if let Err(e) = mark_argument(rt, err, sheet, i, 3 < count) {
            report(err, b"framemark", b"standard output", e);
            return;
        }
    }
}

fn main(rt: HostRuntime) {
    let err = rt.stderr();
    let count = argument_count(&rt);
    if count < 3 {
        let _ = println!(err; "usage: framemark SHEET PAPER ..");
        return;
    }
    let mut text = io::large_buffer();
    let Ok(n) = read_named(&rt, &err, b"framemark", 1, &mut text) else {
        return;
    };
    mark_arguments(&rt, &err, &text[..n], count);
}
