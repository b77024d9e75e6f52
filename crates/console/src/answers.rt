// Answers on standard output. Each function stops at the first write that fails, and returns why it failed.
ghost use Rattle.std.specs.Prelude.{◌≤◌, length, IfOk};

use crate::escape::write_escaped;
use crate::planners::plan;
use frames::{Answer, Claim, Planner, Refusal, numbers_of};
use io::large_buffer;
use std::io::Result as IoResult;

// A space and a number.
pub fn print_number(rt: &impl Print, n: u64) -> IoResult<()> {
    print!(rt; " {n}")
}

// `(accepted S b r)`, or the refusal.
pub fn print_verdict(rt: &impl Print, verdict: Result<Claim, Refusal>) -> IoResult<()> {
    match verdict {
        Ok(claim) => println!(rt;
            "(accepted {} {} {})",
            claim.span, claim.blue_peak, claim.red_peak
        ),
        Err(refusal) => println!(rt; "{refusal}"),
    }
}

// The verdict on a timetable, and the line at fault under a refusal. Nothing is printed for a line at fault that is absent or empty.
pub fn print_marks(rt: &impl Print, sheet: &[u8], paper: &[u8]) -> IoResult<()> {
    let verdict = frames::mark(sheet, paper);
    print_verdict(rt, verdict)?;
    if verdict.is_ok() {
        return Ok(());
    }
    let line = frames::fault_line(sheet, paper);
    if line.is_empty() {
        return Ok(());
    }
    write_escaped(rt, line)?;
    println!(rt)
}

// What is shown, a planner's label, and number, place and trials of its answer.
pub fn print_numbers(rt: &impl Print, name: &[u8], planner: &[u8], answer: Answer) -> IoResult<()> {
    rt.write_all(name)?;
    rt.write_all(planner)?;
    let [number, place] = numbers_of(answer.written);
    println!(rt; " {number} {place} {}", answer.trials)
}

// A planner's name, as it stands between what is shown and the numbers.
fn name_of(planner: Planner) -> &'static [u8] {
    match planner {
        Planner::MemHeft => b", MemHEFT:",
        Planner::MemMinMin => b", MemMinMin:",
        Planner::Heft => b", HEFT:",
        Planner::MinMin => b", MINMIN:",
    }
}

// The same, with the planner's name.
pub fn show_numbers(rt: &impl Print, what: &str, planner: Planner, answer: Answer) -> IoResult<()> {
    print_numbers(rt, what.as_bytes(), name_of(planner), answer)
}

// The text that a call wrote at the front of a buffer; none after a refusal.
pub fn written_text(written: Result<usize, Refusal>, out: &[u8]) -> &[u8]
    requires { IfOk written (λ n. n ≤ length out.now) }
{
    &out[..written.unwrap_or(0)]
}

// That text, or the refusal.
pub fn print_text(rt: &impl Print, written: Result<usize, Refusal>, out: &[u8]) -> IoResult<()>
    requires { IfOk written (λ n. n ≤ length out.now) }
{
    match written {
        Ok(size) => rt.write_all(&out[..size]),
        Err(refusal) => println!(rt; "{refusal}"),
    }
}

// How a timetable is marked that a call wrote. Nothing is printed after a refusal.
pub fn print_text_mark(
    rt: &impl Print,
    sheet: &[u8],
    written: Result<usize, Refusal>,
    out: &[u8],
) -> IoResult<()>
    requires { IfOk written (λ n. n ≤ length out.now) }
{
    let Ok(size) = written else {
        return Ok(());
    };
    print!(rt; "marked: ")?;
    print_verdict(rt, frames::mark(sheet, &out[..size]))
}

// What is shown, and the verdict on a timetable.
pub fn show_verdict(rt: &impl Print, what: &str, sheet: &[u8], paper: &[u8]) -> IoResult<()> {
    print!(rt; "{what}: ")?;
    print_verdict(rt, frames::mark(sheet, paper))
}

// The same, and the line at fault under a refusal.
pub fn show_marks(rt: &impl Print, what: &str, sheet: &[u8], paper: &[u8]) -> IoResult<()> {
    print!(rt; "{what}: ")?;
    print_marks(rt, sheet, paper)
}

// What is shown, number, place and trials of a planner on a sheet, its timetable or refusal, and how the timetable is marked.
pub fn show_plan(rt: &impl Print, what: &str, planner: Planner, sheet: &[u8]) -> IoResult<()> {
    let mut out = large_buffer();
    let answer = plan(planner, sheet, &mut out);
    show_numbers(rt, what, planner, answer)?;
    print_text(rt, answer.written, &out)?;
    print_text_mark(rt, sheet, answer.written, &out)
}
