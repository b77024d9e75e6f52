// framewatch SHEET PAPER [STEPS [MADE]]: shows what the timetable of the file PAPER does on the board of the file SHEET, step by step.
#![tactic(auto)]

mod line;
mod memory;
mod number;
mod step;
mod trace;

use console::{argument_count, read_named, report};
use number::number_of;
use rules::Board;
use std::io::Result;
use std::rt::{Env, Files};

// The number of argument `i`, called `name`; `otherwise` where there is no such argument. Reports one that is no number: one that is
// longer than the buffer counts as empty.
fn number_argument(
    rt: &impl Env,
    err: &impl Print,
    name: &str,
    i: usize,
    otherwise: u64,
) -> Option<u64> {
    if argument_count(rt) <= i {
        return Some(otherwise);
    }
    let mut text = io::buffer();
    let n = rt.arg(i, &mut text).unwrap_or(0);
    let number = number_of(&text[..n]);
    if number.is_none() {
        let _ = print_no_number(err, name);
    }
    number
}

// That the argument called `name` is no number.
fn print_no_number(err: &impl Print, name: &str) -> Result<()> {
    println!(err;
        "framewatch: {name}: not a decimal number from 0 to {}",
        u64::MAX
    )
}

// Shows so many steps of the timetable of argument 2 on a board sheet, behind those made. The buffers for texts are longer than a text
// may be, so a file that fills one is refused as too long.
fn watch(rt: &(impl Env + Files + Print), err: &impl Print, sheet: &[u8], made: u64, steps: u64) {
    let mut text = io::large_buffer();
    let Ok(n) = read_named(rt, err, b"framewatch", 2, &mut text) else {
        return;
    };
    if let Err(e) = trace::show(rt, sheet, &text[..n], made, steps) {
        report(err, b"framewatch", b"standard output", e);
    }
}

// Without STEPS every step is shown: there are never more than one call of the simulator makes.
fn main(rt: HostRuntime) {
    let err = rt.stderr();
    let count = argument_count(&rt);
    if count < 3 || 5 < count {
        let _ = println!(err; "usage: framewatch SHEET PAPER [STEPS [MADE]]");
        return;
    }
    let Some(steps) = number_argument(&rt, &err, "STEPS", 3, Board::MAX_STEPS) else {
        return;
    };
    let Some(made) = number_argument(&rt, &err, "MADE", 4, 0) else {
        return;
    };
    let mut text = io::large_buffer();
    let Ok(n) = read_named(&rt, &err, b"framewatch", 1, &mut text) else {
        return;
    };
    watch(&rt, &err, &text[..n], made, steps);
}
