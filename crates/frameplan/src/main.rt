// frameplan [memheft|memminmin|heft|minmin]: reads a board sheet from standard input and prints its timetable, by MemHEFT or the planner
// named.
#![tactic(auto)]

use console::{Planner, argument_count, plan, print_text, read_descriptor, report};
use std::io::Result;
use std::rt::Env;

// The planner of that name. An argument is bytes, so it is matched as it is: a FromStr would want text.
fn planner_named(word: &[u8]) -> Option<Planner> {
    match word {
        b"memheft" => Some(Planner::MemHeft),
        b"memminmin" => Some(Planner::MemMinMin),
        b"heft" => Some(Planner::Heft),
        b"minmin" => Some(Planner::MinMin),
        _ => None,
    }
}

// The planner that the only argument names, or MemHEFT where there is none.
fn planner_asked(rt: &impl Env) -> Option<Planner> {
    match argument_count(rt) {
        0 | 1 => Some(Planner::MemHeft),
        2 => {
            let mut word = [0u8; 16];
            let n = rt.arg(1, &mut word).ok()?;
            planner_named(&word[..n])
        }
        _ => None,
    }
}

// Prints the planner's timetable, or its refusal.
fn print_plan(rt: &impl Print, planner: Planner, sheet: &[u8]) -> Result<()> {
    let mut out = io::large_buffer();
    let answer = plan(planner, sheet, &mut out);
    print_text(rt, answer.written, &out)
}

// The buffer for the sheet is longer than a text may be, so input that fills it is refused as too long.
fn main(rt: HostRuntime) {
    let err = rt.stderr();
    let Some(planner) = planner_asked(&rt) else {
        let _ = println!(err; "usage: frameplan [memheft|memminmin|heft|minmin] < SHEET");
        return;
    };
    let mut sheet = io::large_buffer();
    let Ok(n) = read_descriptor(
        &err,
        b"frameplan",
        b"standard input",
        &mut rt.stdin(),
        &mut sheet,
    ) else {
        return;
    };
    if let Err(e) = print_plan(&rt, planner, &sheet[..n]) {
        report(&err, b"frameplan", b"standard output", e);
    }
}
