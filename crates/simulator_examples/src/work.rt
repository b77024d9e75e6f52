// Working memory (Order 6): it counts for 17 and its holds have steps, but it is not part of the state.
use crate::show::show_marked;
use std::io::Result;

// The course example with W of 1 for task 1 and of 2 for task 3: the steps and the state are those without W.
fn course(rt: &impl Print) -> Result<()> {
    let sheet =
        b"(board (blue 1 6) (red 1 6))\n(task 1 4 2 1)\n(task 2 3 5)\n(task 3 2 6 2)\n(file 1 2 2 1)\n(file 1 3 3 2)\n";
    let paper =
        b"(run 1 2 0)\n(run 2 1 3)\n(run 3 1 6)\n(move 1 2 2)\n(move 1 3 4)\n(claim 8 5 6)\n";
    show_marked(
        rt,
        "W of 1 and of 2 in the course example: W is held, and is not shown",
        sheet,
        paper,
        0,
        1,
    )?;
    show_marked(rt, "its six steps are those without W", sheet, paper, 0, 6)
}

// W of task 2 is over the limit from its start, 3, on.
fn over(rt: &impl Print) -> Result<()> {
    show_marked(
        rt,
        "17: W of 5 for task 2, beside a file of 2, stops it at 3",
        b"(board (blue 1 6) (red 1 6))\n(task 1 4 2)\n(task 2 3 5 5)\n(task 3 2 6)\n(file 1 2 2 1)\n(file 1 3 3 2)\n",
        b"(run 1 2 0)\n(run 2 1 3)\n(run 3 1 6)\n(move 1 2 2)\n(move 1 3 4)\n(claim 8 5 5)\n",
        0,
        1024,
    )
}

// A relay with W, at 4: its hold ends at 5, which is a step.
fn relay(rt: &impl Print) -> Result<()> {
    let sheet = b"(board (blue 1 9) (red 1 9))\n(task 1 0 0 3)\n";
    let paper = b"(run 1 1 4)\n(claim 4 3 0)\n";
    show_marked(rt, "a relay with W of 3, alone at 4", sheet, paper, 0, 1)?;
    show_marked(
        rt,
        "the end of its hold, one tick past the span",
        sheet,
        paper,
        1,
        1,
    )?;
    show_marked(
        rt,
        "the same without W: no such step",
        b"(board (blue 1 9) (red 1 9))\n(task 1 0 0)\n",
        b"(run 1 1 4)\n(claim 4 0 0)\n",
        0,
        2,
    )?;
    show_marked(
        rt,
        "17: W of 3 over a limit of 2",
        b"(board (blue 1 2) (red 1 9))\n(task 1 0 0 3)\n",
        paper,
        0,
        2,
    )
}

// Two relays with W of 3, for which a memory of 5 blocks has room one after the other.
fn relays(rt: &impl Print) -> Result<()> {
    let sheet = b"(board (blue 2 5) (red 1 0))\n(task 1 0 9 3)\n(task 2 0 9 3)\n";
    show_marked(
        rt,
        "two relays with W of 3, at 0 and at 1: three steps, to the end",
        sheet,
        b"(run 1 1 0)\n(run 2 1 1)\n(claim 1 3 0)\n",
        0,
        3,
    )?;
    show_marked(
        rt,
        "17: both at 0",
        sheet,
        b"(run 1 1 0)\n(run 2 1 0)\n(claim 0 6 0)\n",
        0,
        3,
    )
}

pub fn examples(rt: &impl Print) -> Result<()> {
    course(rt)?;
    over(rt)?;
    relay(rt)?;
    relays(rt)
}
