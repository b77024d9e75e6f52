// Both memory-aware planners on the sheets of data/, those with relays last, and a buffer one byte too short.
#![tactic(auto)]

use console::{Planner, plan, print_text, read_file, show_numbers};
use model::finishes::Finishes;
use std::io::Result;
use std::rt::Files;

fn show_plan(rt: &impl Print, name: &str, planner: Planner, sheet: &[u8]) -> Result<()> {
    let mut out = io::large_buffer();
    let answer = plan(planner, sheet, &mut out);
    show_numbers(rt, name, planner, answer)?;
    print_text(rt, answer.written, &out)
}

// Both memory-aware planners on the sheet of a file.
fn show(rt: &(impl Files + Print), err: &impl Print, name: &str) -> Result<()> {
    let mut sheet = io::large_buffer();
    let Ok(n) = read_file(rt, err, b"planner_examples", name.as_bytes(), &mut sheet) else {
        return Ok(());
    };
    show_plan(rt, name, Planner::MemHeft, &sheet[..n])?;
    show_plan(rt, name, Planner::MemMinMin, &sheet[..n])
}

// The course example takes 76 bytes; 75 are lent, and stay as they were.
fn show_short(rt: &impl Print) -> Result<()> {
    let sheet =
        b"(board (blue 1 6) (red 1 6))\n(task 1 4 2)\n(task 2 3 5)\n(task 3 2 6)\n(file 1 2 2 1)\n(file 1 3 3 2)\n";
    let mut out = [b'.'; 75];
    let answer = frames::plan(Planner::MemHeft, sheet, &mut out);
    show_numbers(rt, "75 bytes", Planner::MemHeft, answer)?;
    rt.write_all(&out)?;
    println!(rt)
}

// What a planner keeps of the processors: each has the finish that was written last, and 0 where none was.
fn show_finishes(rt: &impl Print) -> Result<()> {
    let mut finishes = Finishes::new();
    finishes.set(0, 8);
    finishes.set(1, 3);
    finishes.set(1, 5);
    let [first, second, third] = [finishes.of(0), finishes.of(1), finishes.of(2)];
    println!(rt; "last finishes: {first} {second} {third}")
}

// Relays, by Order 1.
fn relays(rt: &(impl Files + Print), err: &impl Print) -> Result<()> {
    // a file for four readers, by a chain of three relays
    show(rt, err, "relay_chain.sheet")?;
    // tasks that are relays on one colour and take time on the other
    show(rt, err, "relay_one_colour.sheet")?;
    // a relay last of all, with just the memory for what is held at the span, and with one block less
    show(rt, err, "relay_last.sheet")?;
    show(rt, err, "relay_last_less.sheet")?;
    // the same with a file that moves
    show(rt, err, "relay_last_moved.sheet")?;
    show(rt, err, "relay_last_moved_less.sheet")?;
    // a task that waits for what a relay reads: one tick more than the relay
    show(rt, err, "relay_release.sheet")?;
    // relays only, limits equal to the sum of all file sizes, and one block less
    show(rt, err, "relay_all.sheet")?;
    show(rt, err, "relay_all_less.sheet")?;
    // relays on blue, on red and on both, among tasks that take time
    show(rt, err, "relay_mixed.sheet")
}

fn main(rt: HostRuntime) -> Result<()> {
    let err = rt.stderr();
    show(&rt, &err, "course.sheet")?;
    show(&rt, &err, "tight.sheet")?;
    show(&rt, &err, "stuck.sheet")?;
    show(&rt, &err, "stuck_late.sheet")?;
    show(&rt, &err, "red_only.sheet")?;
    show(&rt, &err, "blue_only.sheet")?;
    show(&rt, &err, "equal_weights.sheet")?;
    show(&rt, &err, "equal_finishes.sheet")?;
    show(&rt, &err, "latest_processor.sheet")?;
    show(&rt, &err, "size_zero.sheet")?;
    show(&rt, &err, "no_files.sheet")?;
    show(&rt, &err, "move_times_differ.sheet")?;
    show(&rt, &err, "refused_line.sheet")?;
    show(&rt, &err, "largest.sheet")?;
    show_short(&rt)?;
    relays(&rt, &err)?;
    show_finishes(&rt)
}
