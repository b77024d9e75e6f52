// framestrip SHEET PAPER: prints what is left, for the board sheet of the file SHEET, of the timetable of the file PAPER, which is one of the
// sheet that frameconvert prints (Order 7).
#![tactic(auto)]

use console::{argument_count, print_text, read_named, report, strip};
use std::io::Result;
use std::rt::{Env, Files};

// Prints what is left of a timetable, or the refusal. One function for this and frameconvert's would take a closure that writes.
fn print_stripped(rt: &impl Print, sheet: &[u8], paper: &[u8]) -> Result<()> {
    let mut out = io::large_buffer();
    let written = strip(sheet, paper, &mut out);
    print_text(rt, written, &out)
}

// Strips the timetable of argument 2. The buffers for texts are longer than a text may be, so a file that fills one is refused as too long.
fn strip_argument(rt: &(impl Env + Files + Print), err: &impl Print, sheet: &[u8]) {
    let mut text = io::large_buffer();
    let Ok(n) = read_named(rt, err, b"framestrip", 2, &mut text) else {
        return;
    };
    if let Err(e) = print_stripped(rt, sheet, &text[..n]) {
        report(err, b"framestrip", b"standard output", e);
    }
}

fn main(rt: HostRuntime) {
    let err = rt.stderr();
    if argument_count(&rt) != 3 {
        let _ = println!(err; "usage: framestrip SHEET PAPER");
        return;
    }
    let mut text = io::large_buffer();
    let Ok(n) = read_named(&rt, &err, b"framestrip", 1, &mut text) else {
        return;
    };
    strip_argument(&rt, &err, &text[..n]);
}
