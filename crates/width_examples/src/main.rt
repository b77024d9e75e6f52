// Numbers next to the edges that Order 5 moved (the digits of a number; B, R and C; s, t and the claim), and numbers of 10 to 13 digits
// where a range is as it was. Each line says what is shown and how the timetable is marked; under a refusal of a line stands that line.
#![tactic(auto)]

use console::show_marks as show;
use std::io::Result;

// A board sheet with one task that takes a tick on blue and none on red, and a timetable of it.
fn show_paper(rt: &impl Print, what: &str, paper: &[u8]) -> Result<()> {
    show(
        rt,
        what,
        b"(board (blue 1 0) (red 1 0))\n(task 1 1 0)\n",
        paper,
    )
}

// A board sheet with a file that moves from blue to red, and a timetable of it.
fn show_move(rt: &impl Print, what: &str, paper: &[u8]) -> Result<()> {
    show(
        rt,
        what,
        b"(board (blue 1 5) (red 1 5))\n(task 1 1 9)\n(task 2 9 1)\n(file 1 2 5 1000000000)\n",
        paper,
    )
}

// A board sheet and the timetable that is right for it where B is 1000000000.
fn show_sheet(rt: &impl Print, what: &str, sheet: &[u8]) -> Result<()> {
    show(rt, what, sheet, b"(run 1 1 0)\n(claim 1000000000 0 0)\n")
}

// B: to 1000000000.
fn run_time_on_blue(rt: &impl Print) -> Result<()> {
    show_sheet(
        rt,
        "B of 1000000000",
        b"(board (blue 1 0) (red 1 0))\n(task 1 1000000000 1)\n",
    )?;
    show_sheet(
        rt,
        "B of 1000000001",
        b"(board (blue 1 0) (red 1 0))\n(task 1 1000000001 1)\n",
    )?;
    show_sheet(
        rt,
        "B of 12 digits",
        b"(board (blue 1 0) (red 1 0))\n(task 1 999999999999 1)\n",
    )?;
    show_sheet(
        rt,
        "B of 13 digits",
        b"(board (blue 1 0) (red 1 0))\n(task 1 1000000000000 1)\n",
    )
}

// R: to 1000000000.
fn run_time_on_red(rt: &impl Print) -> Result<()> {
    show_sheet(
        rt,
        "R of 1000000000",
        b"(board (blue 1 0) (red 1 0))\n(task 1 1000000000 1000000000)\n",
    )?;
    show_sheet(
        rt,
        "R of 1000000001",
        b"(board (blue 1 0) (red 1 0))\n(task 1 1000000000 1000000001)\n",
    )?;
    show_sheet(
        rt,
        "R of 12 digits",
        b"(board (blue 1 0) (red 1 0))\n(task 1 1000000000 999999999999)\n",
    )?;
    show_sheet(
        rt,
        "R of 13 digits",
        b"(board (blue 1 0) (red 1 0))\n(task 1 1000000000 1000000000000)\n",
    )
}

// C: to 1000000000.
fn move_time(rt: &impl Print) -> Result<()> {
    show_sheet(
        rt,
        "C of 1000000001",
        b"(board (blue 1 0) (red 1 0))\n(task 1 1 1)\n(task 2 1 1)\n(file 1 2 0 1000000001)\n",
    )?;
    show_sheet(
        rt,
        "C of 12 digits",
        b"(board (blue 1 0) (red 1 0))\n(task 1 1 1)\n(task 2 1 1)\n(file 1 2 0 999999999999)\n",
    )?;
    show_sheet(
        rt,
        "C of 13 digits",
        b"(board (blue 1 0) (red 1 0))\n(task 1 1 1)\n(task 2 1 1)\n(file 1 2 0 1000000000000)\n",
    )?;
    show_move(
        rt,
        "C of 1000000000",
        b"(run 1 1 0)\n(run 2 2 1000000001)\n(move 1 2 1)\n(claim 1000000002 5 5)\n",
    )?;
    show_move(
        rt,
        "C of 1000000000, the reader one tick early",
        b"(run 1 1 0)\n(run 2 2 1000000000)\n(move 1 2 1)\n(claim 1000000001 5 5)\n",
    )
}

// M: as it was. From 10 to 12 digits a number is out of range, with 13 the line has no form; so it is with each range that stayed.
fn memory_limit(rt: &impl Print) -> Result<()> {
    show_sheet(
        rt,
        "M of 999999999",
        b"(board (blue 1 999999999) (red 1 0))\n(task 1 1000000000 1)\n",
    )?;
    show_sheet(
        rt,
        "M of 1000000000",
        b"(board (blue 1 1000000000) (red 1 0))\n(task 1 1 1)\n",
    )?;
    show_sheet(
        rt,
        "M of 12 digits",
        b"(board (blue 1 0) (red 1 999999999999))\n(task 1 1 1)\n",
    )?;
    show_sheet(
        rt,
        "M of 13 digits",
        b"(board (blue 1 0) (red 1 1000000000000))\n(task 1 1 1)\n",
    )
}

// P: as it was.
fn processors(rt: &impl Print) -> Result<()> {
    show_sheet(
        rt,
        "P of 10 digits",
        b"(board (blue 1000000000 0) (red 1 0))\n(task 1 1 1)\n",
    )?;
    show_sheet(
        rt,
        "P of 12 digits",
        b"(board (blue 1 0) (red 100000000000 0))\n(task 1 1 1)\n",
    )?;
    show_sheet(
        rt,
        "P of 13 digits",
        b"(board (blue 1000000000000 0) (red 1 0))\n(task 1 1 1)\n",
    )
}

// i of a task: as it was.
fn task_of_a_task(rt: &impl Print) -> Result<()> {
    show_sheet(
        rt,
        "i of 10 digits",
        b"(board (blue 1 0) (red 1 0))\n(task 1000000000 1 1)\n",
    )?;
    show_sheet(
        rt,
        "i of 12 digits",
        b"(board (blue 1 0) (red 1 0))\n(task 100000000000 1 1)\n",
    )?;
    show_sheet(
        rt,
        "i of 13 digits",
        b"(board (blue 1 0) (red 1 0))\n(task 1000000000000 1 1)\n",
    )
}

// i and j of a file: as they were.
fn tasks_of_a_file(rt: &impl Print) -> Result<()> {
    show_sheet(
        rt,
        "i of a file of 12 digits",
        b"(board (blue 1 0) (red 1 0))\n(task 1 1 1)\n(file 100000000000 2 1 1)\n",
    )?;
    show_sheet(
        rt,
        "i of a file of 13 digits",
        b"(board (blue 1 0) (red 1 0))\n(task 1 1 1)\n(file 1000000000000 2 1 1)\n",
    )?;
    show_sheet(
        rt,
        "j of 12 digits",
        b"(board (blue 1 0) (red 1 0))\n(task 1 1 1)\n(file 1 100000000000 1 1)\n",
    )?;
    show_sheet(
        rt,
        "j of 13 digits",
        b"(board (blue 1 0) (red 1 0))\n(task 1 1 1)\n(file 1 1000000000000 1 1)\n",
    )
}

// F: as it was.
fn size(rt: &impl Print) -> Result<()> {
    show(
        rt,
        "F of 1000000",
        b"(board (blue 1 1000000) (red 1 0))\n(task 1 1 1)\n(task 2 1 1)\n(file 1 2 1000000 1)\n",
        b"(run 1 1 0)\n(run 2 1 1)\n(claim 2 1000000 0)\n",
    )?;
    show_sheet(
        rt,
        "F of 1000001",
        b"(board (blue 1 0) (red 1 0))\n(task 1 1 1)\n(task 2 1 1)\n(file 1 2 1000001 1)\n",
    )?;
    show_sheet(
        rt,
        "F of 12 digits",
        b"(board (blue 1 0) (red 1 0))\n(task 1 1 1)\n(task 2 1 1)\n(file 1 2 999999999999 1)\n",
    )?;
    show_sheet(
        rt,
        "F of 13 digits",
        b"(board (blue 1 0) (red 1 0))\n(task 1 1 1)\n(task 2 1 1)\n(file 1 2 1000000000000 1)\n",
    )
}

// s: to 999999999999.
fn start(rt: &impl Print) -> Result<()> {
    show_paper(
        rt,
        "s of 999999999",
        b"(run 1 1 999999999)\n(claim 1000000000 0 0)\n",
    )?;
    show_paper(
        rt,
        "s of 1000000000",
        b"(run 1 1 1000000000)\n(claim 1000000001 0 0)\n",
    )?;
    show_paper(
        rt,
        "s of 999999999998",
        b"(run 1 1 999999999998)\n(claim 999999999999 0 0)\n",
    )?;
    show_paper(
        rt,
        "s of 999999999999, a task that takes no time",
        b"(run 1 2 999999999999)\n(claim 999999999999 0 0)\n",
    )
}

// A span that no claim can tell.
fn span_over_the_range(rt: &impl Print) -> Result<()> {
    show_paper(
        rt,
        "s of 999999999999, the span over the range",
        b"(run 1 1 999999999999)\n(claim 999999999999 0 0)\n",
    )?;
    show_paper(
        rt,
        "the same with the span claimed in 13 digits",
        b"(run 1 1 999999999999)\n(claim 1000000000000 0 0)\n",
    )
}

// Starts that are no numbers: 13 digits, a leading 0.
fn long_start(rt: &impl Print) -> Result<()> {
    show_paper(
        rt,
        "s of 13 digits",
        b"(run 1 1 1000000000000)\n(claim 1 0 0)\n",
    )?;
    show_paper(
        rt,
        "s of 12 digits with a leading 0",
        b"(run 1 1 099999999999)\n(claim 1 0 0)\n",
    )
}

// b and r: to 999999999999.
fn peak(rt: &impl Print) -> Result<()> {
    show_paper(
        rt,
        "a peak of 12 digits",
        b"(run 1 1 0)\n(claim 1 999999999999 0)\n",
    )?;
    show_paper(
        rt,
        "a peak of 13 digits",
        b"(run 1 1 0)\n(claim 1 0 1000000000000)\n",
    )
}

// t: to 999999999999.
fn move_start(rt: &impl Print) -> Result<()> {
    show_move(
        rt,
        "t of 998999999998",
        b"(run 1 1 998999999997)\n(run 2 2 999999999998)\n(move 1 2 998999999998)\n(claim 999999999999 5 5)\n",
    )?;
    show_move(
        rt,
        "t of 999999999999, which no reader can await",
        b"(run 1 1 0)\n(run 2 2 999999999999)\n(move 1 2 999999999999)\n(claim 999999999999 5 5)\n",
    )?;
    show_move(
        rt,
        "t of 13 digits",
        b"(run 1 1 0)\n(run 2 2 999999999999)\n(move 1 2 1000000000000)\n(claim 999999999999 5 5)\n",
    )
}

// p: as it was.
fn processor(rt: &impl Print) -> Result<()> {
    show_paper(rt, "p of 10 digits", b"(run 1 1000000000 0)\n")?;
    show_paper(rt, "p of 12 digits", b"(run 1 100000000000 0)\n")?;
    show_paper(rt, "p of 13 digits", b"(run 1 1000000000000 0)\n")
}

// i of a run: as it was.
fn task_of_a_run(rt: &impl Print) -> Result<()> {
    show_paper(rt, "i of a run of 12 digits", b"(run 100000000000 1 0)\n")?;
    show_paper(rt, "i of a run of 13 digits", b"(run 1000000000000 1 0)\n")
}

// i and j of a move: as they were.
fn tasks_of_a_move(rt: &impl Print) -> Result<()> {
    show_paper(rt, "i of a move of 12 digits", b"(move 100000000000 1 0)\n")?;
    show_paper(
        rt,
        "i of a move of 13 digits",
        b"(move 1000000000000 1 0)\n",
    )?;
    show_paper(rt, "j of a move of 10 digits", b"(move 1 1000000000 0)\n")?;
    show_paper(
        rt,
        "j of a move of 13 digits",
        b"(move 1 1000000000000 0)\n",
    )
}

fn main(rt: HostRuntime) -> Result<()> {
    run_time_on_blue(&rt)?;
    run_time_on_red(&rt)?;
    move_time(&rt)?;
    memory_limit(&rt)?;
    processors(&rt)?;
    task_of_a_task(&rt)?;
    tasks_of_a_file(&rt)?;
    size(&rt)?;
    start(&rt)?;
    span_over_the_range(&rt)?;
    long_start(&rt)?;
    peak(&rt)?;
    move_start(&rt)?;
    processor(&rt)?;
    task_of_a_run(&rt)?;
    tasks_of_a_move(&rt)
}
