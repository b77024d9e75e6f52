// Relays (Order 1): one occupies no instant, and the file that it reads is held until the tick after its start.
use crate::show::show_marked;
use std::io::Result;

// The course example with task 3 a relay on blue, at the span; with the steps already made and those to make.
fn at_the_span(rt: &impl Print, what: &str, made: u64, steps: u64) -> Result<()> {
    show_marked(
        rt,
        what,
        b"(board (blue 1 6) (red 1 6))\n(task 1 4 2)\n(task 2 3 5)\n(task 3 0 6)\n(file 1 2 2 1)\n(file 1 3 3 2)\n",
        b"(run 1 2 0)\n(run 2 1 3)\n(run 3 1 6)\n(move 1 2 2)\n(move 1 3 4)\n(claim 6 5 5)\n",
        made,
        steps,
    )
}

fn last(rt: &impl Print) -> Result<()> {
    at_the_span(rt, "a relay at 6, the span: the step before it", 0, 4)?;
    at_the_span(
        rt,
        "at its tick it is not seen running, and its file is held",
        4,
        1,
    )?;
    at_the_span(
        rt,
        "one tick past the span its file is held no more: the end",
        5,
        1,
    )
}

// The same relay inside the run of task 2.
fn inside(rt: &impl Print) -> Result<()> {
    show_marked(
        rt,
        "15: a relay inside the run of task 2, at its tick",
        b"(board (blue 1 6) (red 1 6))\n(task 1 4 2)\n(task 2 3 5)\n(task 3 0 6)\n(file 1 2 2 1)\n(file 1 3 3 2)\n",
        b"(run 1 2 0)\n(run 2 1 3)\n(run 3 1 5)\n(move 1 2 2)\n(move 1 3 3)\n(claim 6 5 5)\n",
        0,
        1024,
    )
}

// Alone on its sheet, at tick 0.
fn alone(rt: &impl Print) -> Result<()> {
    let sheet = b"(board (blue 1 6) (red 1 6))\n(task 1 0 2)\n";
    let paper = b"(run 1 1 0)\n(claim 0 0 0)\n";
    show_marked(rt, "a relay alone at 0, no step", sheet, paper, 0, 0)?;
    show_marked(
        rt,
        "its one step, to the end with span 0",
        sheet,
        paper,
        0,
        1,
    )
}

pub fn examples(rt: &impl Print) -> Result<()> {
    last(rt)?;
    inside(rt)?;
    alone(rt)
}
