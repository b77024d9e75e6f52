// The four planners side by side on the sheets of data/ (Order 4): of each the number, the place and the trials, then its timetable and what
// the marker says to it on the same sheet.
#![tactic(auto)]

use console::{Planner, read_file, show_numbers, show_plan};
use std::io::Result;
use std::rt::Files;

// Each plain planner, and behind it the memory-aware one.
fn show_planners(rt: &impl Print, name: &str, sheet: &[u8]) -> Result<()> {
    show_plan(rt, name, Planner::Heft, sheet)?;
    show_plan(rt, name, Planner::MemHeft, sheet)?;
    show_plan(rt, name, Planner::MinMin, sheet)?;
    show_plan(rt, name, Planner::MemMinMin, sheet)
}

// The planners on the sheet of a file.
fn show(rt: &(impl Files + Print), err: &impl Print, name: &str) -> Result<()> {
    let mut sheet = io::large_buffer();
    let Ok(n) = read_file(rt, err, b"plain_examples", name.as_bytes(), &mut sheet) else {
        return Ok(());
    };
    show_planners(rt, name, &sheet[..n])
}

// The course example takes 76 bytes; 75 are lent to HEFT, and stay as they were.
fn show_short(rt: &impl Print) -> Result<()> {
    let sheet =
        b"(board (blue 1 6) (red 1 6))\n(task 1 4 2)\n(task 2 3 5)\n(task 3 2 6)\n(file 1 2 2 1)\n(file 1 3 3 2)\n";
    let mut out = [b'.'; 75];
    let answer = frames::plan(Planner::Heft, sheet, &mut out);
    show_numbers(rt, "75 bytes", Planner::Heft, answer)?;
    rt.write_all(&out)?;
    println!(rt)
}

// Times of up to 1000000000 ticks (Order 5).
fn nanoseconds(rt: &(impl Files + Print), err: &impl Print) -> Result<()> {
    // a move of one tick less than the run that it saves; and of as many, where blue is taken
    show(rt, err, "move_pays.sheet")?;
    show(rt, err, "move_ties.sheet")?;
    // the memory-aware planners let task 3 wait for memory until tick 2000000000, the plain ones start it at 0
    show(rt, err, "seconds.sheet")
}

fn main(rt: HostRuntime) -> Result<()> {
    let err = rt.stderr();
    // the course example: limits of 6, all files together 5; each planner writes its plain parent's timetable
    show(&rt, &err, "course.sheet")?;
    // blue limit 4: the memory-aware planners keep task 3 on red, the plain plan is over the limit at tick 4
    show(&rt, &err, "course_blue_4.sheet")?;
    // both limits 4: the memory-aware planners are stuck, the plain plan is over the limit at once
    show(&rt, &err, "course_both_4.sheet")?;
    // four planners, four plans; both plain ones over the red limit of 0
    show(&rt, &err, "four_plans.sheet")?;
    // ample memory: HEFT and MINMIN differ, HEFT is later
    show(&rt, &err, "heft_later.sheet")?;
    // the same with task 3 faster on blue: MINMIN is later
    show(&rt, &err, "heft_sooner.sheet")?;
    // limits that equal the plain plan's peaks, 3 and 3, less than all files, 4: the plain plan is valid, and the memory-aware planners write another
    show(&rt, &err, "limits_are_peaks.sheet")?;
    // the same premise, peaks 3 and 2: the memory-aware planners are stuck
    show(&rt, &err, "limits_are_peaks_stuck.sheet")?;
    // limits of 7 above the plain plan's peaks, 6 and 6, and below all files, 9: another plan all the same
    show(&rt, &err, "limits_above_peaks.sheet")?;
    // a plain plan that is over a limit and longer besides
    show(&rt, &err, "refused_and_longer.sheet")?;
    // the memory-aware planners are stuck after one task
    show(&rt, &err, "stuck_later.sheet")?;
    // over the limit only while a relay holds what it reads and what it makes
    show(&rt, &err, "relay.sheet")?;
    // a relay last: over the limit at the span
    show(&rt, &err, "relay_last.sheet")?;
    // a refused sheet: each planner refuses it, with 0 trials
    show(&rt, &err, "refused_line.sheet")?;
    show_short(&rt)?;
    nanoseconds(&rt, &err)
}
