// The course example: its six steps one by one, several at a time, and none; the same at other ticks, and on the largest board.
use crate::show::{show, show_marked};
use std::io::Result;

// The course example, with the steps already made and those to make.
pub fn course(rt: &impl Print, what: &str, made: u64, steps: u64) -> Result<()> {
    show(
        rt,
        what,
        b"(board (blue 1 6) (red 1 6))\n(task 1 4 2)\n(task 2 3 5)\n(task 3 2 6)\n(file 1 2 2 1)\n(file 1 3 3 2)\n",
        b"(run 1 2 0)\n(run 2 1 3)\n(run 3 1 6)\n(move 1 2 2)\n(move 1 3 4)\n(claim 8 5 5)\n",
        made,
        steps,
    )
}

// Each call makes the step after those of the call before.
fn step_by_step(rt: &impl Print) -> Result<()> {
    course(
        rt,
        "the course example, no step: time 0, nothing running or held",
        0,
        0,
    )?;
    course(
        rt,
        "step 1, at time 0 too: task 1 starts on red, which holds both its files",
        0,
        1,
    )?;
    course(
        rt,
        "step 2: task 1 has ended, and its first file starts to move: both memories hold it",
        1,
        1,
    )?;
    course(
        rt,
        "step 3: the move has ended, blue alone holds the file, and task 2 starts",
        2,
        1,
    )?;
    course(rt, "step 4: the second file starts to move", 3, 1)?;
    course(
        rt,
        "step 5: task 2 and the move have ended, the first file is held no more, and task 3 starts",
        4,
        1,
    )?;
    course(rt, "step 6: task 3 has ended: the end, with the span", 5, 1)
}

// A later call names the steps already made and goes on from there.
fn going_on(rt: &impl Print) -> Result<()> {
    course(rt, "3 steps in one call", 0, 3)?;
    course(rt, "from these 3, 2 steps more", 3, 2)?;
    course(rt, "the 5 in one call", 0, 5)?;
    course(rt, "from the first 3, 3 steps more, to the end", 3, 3)?;
    show_marked(
        rt,
        "the 6 in one call",
        b"(board (blue 1 6) (red 1 6))\n(task 1 4 2)\n(task 2 3 5)\n(task 3 2 6)\n(file 1 2 2 1)\n(file 1 3 3 2)\n",
        b"(run 1 2 0)\n(run 2 1 3)\n(run 3 1 6)\n(move 1 2 2)\n(move 1 3 4)\n(claim 8 5 5)\n",
        0,
        6,
    )
}

// Without a step to make the answer is that of the steps already made.
fn no_step(rt: &impl Print) -> Result<()> {
    course(rt, "from 3 made, no step: the state of step 3", 3, 0)?;
    course(rt, "from 6 made, no step: the end", 6, 0)
}

// The steps go to the ticks at which something starts or ends, and to no others.
fn ticks(rt: &impl Print) -> Result<()> {
    show_marked(
        rt,
        "the course example three ticks later: the first step goes to tick 3",
        b"(board (blue 1 6) (red 1 6))\n(task 1 4 2)\n(task 2 3 5)\n(task 3 2 6)\n(file 1 2 2 1)\n(file 1 3 3 2)\n",
        b"(run 1 2 3)\n(run 2 1 6)\n(run 3 1 9)\n(move 1 2 5)\n(move 1 3 7)\n(claim 11 5 5)\n",
        0,
        1,
    )?;
    show_marked(
        rt,
        "all that follows task 1 two ticks later: its end has a step of its own, to tick 2",
        b"(board (blue 1 6) (red 1 6))\n(task 1 4 2)\n(task 2 3 5)\n(task 3 2 6)\n(file 1 2 2 1)\n(file 1 3 3 2)\n",
        b"(run 1 2 0)\n(run 2 1 5)\n(run 3 1 8)\n(move 1 2 4)\n(move 1 3 6)\n(claim 10 5 5)\n",
        0,
        2,
    )
}

// Sixteen processors: the blue ones come first.
fn largest_board(rt: &impl Print) -> Result<()> {
    let sheet =
        b"(board (blue 8 6) (red 8 6))\n(task 1 4 2)\n(task 2 3 5)\n(task 3 2 6)\n(file 1 2 2 1)\n(file 1 3 3 2)\n";
    let paper =
        b"(run 1 16 0)\n(run 2 1 3)\n(run 3 8 4)\n(move 1 2 2)\n(move 1 3 2)\n(claim 6 5 5)\n";
    show(
        rt,
        "sixteen processors: task 1 on the last red one",
        sheet,
        paper,
        0,
        1,
    )?;
    show_marked(
        rt,
        "tasks 2 and 3 at once, on the first and the last blue one",
        sheet,
        paper,
        0,
        4,
    )
}

pub fn examples(rt: &impl Print) -> Result<()> {
    step_by_step(rt)?;
    going_on(rt)?;
    no_step(rt)?;
    ticks(rt)?;
    largest_board(rt)
}
