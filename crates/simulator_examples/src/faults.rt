// Stops for a fault: by 15 at the later start, by 16 at the early start or move, by 17 at the instant. The first faulty tick decides,
// and at one tick the lowest number.
use crate::show::{show, show_marked};
use std::io::Result;

// A timetable on the course example's sheet, with steps enough.
fn on_course(rt: &impl Print, what: &str, paper: &[u8]) -> Result<()> {
    show_marked(
        rt,
        what,
        b"(board (blue 1 6) (red 1 6))\n(task 1 4 2)\n(task 2 3 5)\n(task 3 2 6)\n(file 1 2 2 1)\n(file 1 3 3 2)\n",
        paper,
        0,
        1024,
    )
}

// The same with blue limit 4.
fn on_tight_blue(rt: &impl Print, what: &str, paper: &[u8]) -> Result<()> {
    show_marked(
        rt,
        what,
        b"(board (blue 1 4) (red 1 6))\n(task 1 4 2)\n(task 2 3 5)\n(task 3 2 6)\n(file 1 2 2 1)\n(file 1 3 3 2)\n",
        paper,
        0,
        1024,
    )
}

// The same with two blue processors and blue limit 4.
fn on_two_blue(rt: &impl Print, what: &str, paper: &[u8]) -> Result<()> {
    show_marked(
        rt,
        what,
        b"(board (blue 2 4) (red 1 6))\n(task 1 4 2)\n(task 2 3 5)\n(task 3 2 6)\n(file 1 2 2 1)\n(file 1 3 3 2)\n",
        paper,
        0,
        1024,
    )
}

// 15, at the later of the two starts.
fn shared(rt: &impl Print) -> Result<()> {
    on_course(
        rt,
        "15: task 3 starts at 5, inside the run of task 2",
        b"(run 1 2 0)\n(run 2 1 3)\n(run 3 1 5)\n(move 1 2 2)\n(move 1 3 3)\n(claim 7 5 5)\n",
    )?;
    on_course(
        rt,
        "15: task 2 starts at 5, inside the run of task 3",
        b"(run 1 2 0)\n(run 2 1 5)\n(run 3 1 4)\n(move 1 2 2)\n(move 1 3 2)\n(claim 8 5 5)\n",
    )
}

// 16, at the move or at the reader's start.
fn early(rt: &impl Print) -> Result<()> {
    on_course(
        rt,
        "16: an early move, at 1 of a file that is made at 2",
        b"(run 1 2 0)\n(run 2 1 3)\n(run 3 1 6)\n(move 1 2 1)\n(move 1 3 4)\n(claim 8 5 5)\n",
    )?;
    on_course(
        rt,
        "16: an early start, at 6 with a file that arrives at 7",
        b"(run 1 2 0)\n(run 2 1 3)\n(run 3 1 6)\n(move 1 2 2)\n(move 1 3 5)\n(claim 8 5 5)\n",
    )?;
    show_marked(
        rt,
        "16: an early start without a move, at 3 with a file that is made at 4",
        b"(board (blue 2 6) (red 1 6))\n(task 1 4 2)\n(task 2 3 5)\n(task 3 2 6)\n(file 1 2 2 1)\n(file 1 3 3 2)\n",
        b"(run 1 1 0)\n(run 2 2 3)\n(run 3 1 4)\n(claim 6 5 0)\n",
        0,
        1024,
    )
}

// The later tick has the lower number: the marker says that one.
fn by_time(rt: &impl Print) -> Result<()> {
    on_tight_blue(
        rt,
        "17 at 4 before 15 and 16 at 5, by time",
        b"(run 1 2 0)\n(run 2 1 3)\n(run 3 1 5)\n(move 1 2 2)\n(move 1 3 4)\n(claim 8 5 5)\n",
    )?;
    on_tight_blue(
        rt,
        "17 at 5 before 16 at 6, by time",
        b"(run 1 2 0)\n(run 2 1 3)\n(run 3 1 6)\n(move 1 2 2)\n(move 1 3 5)\n(claim 8 5 5)\n",
    )?;
    on_course(
        rt,
        "16 at 1 before 15 at 5, by time",
        b"(run 1 2 0)\n(run 2 1 3)\n(run 3 1 5)\n(move 1 2 1)\n(move 1 3 3)\n(claim 7 5 5)\n",
    )
}

// At tick 5 task 3 starts on the processor of task 2, before its file arrives, and blue gets over its limit. Then one fault after the
// other is mended.
fn at_one_tick(rt: &impl Print) -> Result<()> {
    on_two_blue(
        rt,
        "15, 16 and 17 at one tick: 15",
        b"(run 1 3 0)\n(run 2 1 3)\n(run 3 1 5)\n(move 1 2 2)\n(move 1 3 5)\n(claim 7 5 5)\n",
    )?;
    on_two_blue(
        rt,
        "16 and 17, with task 3 on another processor: 16",
        b"(run 1 3 0)\n(run 2 1 3)\n(run 3 2 5)\n(move 1 2 2)\n(move 1 3 5)\n(claim 7 5 5)\n",
    )?;
    on_two_blue(
        rt,
        "17 alone, with task 3 started at its file's arrival",
        b"(run 1 3 0)\n(run 2 1 3)\n(run 3 2 7)\n(move 1 2 2)\n(move 1 3 5)\n(claim 9 5 5)\n",
    )?;
    on_two_blue(
        rt,
        "no fault, with the file moved when blue has room for it",
        b"(run 1 3 0)\n(run 2 1 3)\n(run 3 2 8)\n(move 1 2 2)\n(move 1 3 6)\n(claim 10 3 5)\n",
    )
}

// A fault at the first tick leaves the state before the first step, at time 0 whatever the tick is.
fn at_the_first_tick(rt: &impl Print) -> Result<()> {
    let tight_red =
        b"(board (blue 1 6) (red 1 4))\n(task 1 4 2)\n(task 2 3 5)\n(task 3 2 6)\n(file 1 2 2 1)\n(file 1 3 3 2)\n";
    let paper =
        b"(run 1 2 0)\n(run 2 1 3)\n(run 3 1 6)\n(move 1 2 2)\n(move 1 3 4)\n(claim 8 5 5)\n";
    show(
        rt,
        "red limit 4, no step: the fault is still ahead",
        tight_red,
        paper,
        0,
        0,
    )?;
    show_marked(rt, "17 at the first tick, 0", tight_red, paper, 0, 1)?;
    show_marked(
        rt,
        "17 at the first tick, 3",
        tight_red,
        b"(run 1 2 3)\n(run 2 1 6)\n(run 3 1 9)\n(move 1 2 5)\n(move 1 3 7)\n(claim 11 5 5)\n",
        0,
        1,
    )?;
    on_course(
        rt,
        "15 at the first tick, 0, where tasks 1 and 2 both start on red",
        b"(run 1 2 0)\n(run 2 2 0)\n(run 3 1 6)\n(move 1 3 4)\n(claim 8 3 5)\n",
    )
}

pub fn examples(rt: &impl Print) -> Result<()> {
    shared(rt)?;
    early(rt)?;
    by_time(rt)?;
    at_one_tick(rt)?;
    at_the_first_tick(rt)
}
