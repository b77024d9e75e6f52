// Plans of tasks with W: start 3 asks for it, start 4 does not, and a plain planner asks for neither.
use console::{Planner, show_plan};
use std::io::Result;

// All four planners on a sheet.
fn show(rt: &impl Print, what: &str, sheet: &[u8]) -> Result<()> {
    show_plan(rt, what, Planner::MemHeft, sheet)?;
    show_plan(rt, what, Planner::MemMinMin, sheet)?;
    show_plan(rt, what, Planner::Heft, sheet)?;
    show_plan(rt, what, Planner::MinMin, sheet)
}

// W alone.
fn alone(rt: &impl Print) -> Result<()> {
    show(
        rt,
        "W of 5 over both limits of 4",
        b"(board (blue 1 4) (red 1 4))\n(task 1 2 2 5)\n",
    )?;
    show(
        rt,
        "W of 5 over the limit of red, the faster colour",
        b"(board (blue 1 5) (red 1 4))\n(task 1 9 2 5)\n",
    )
}

// Task 2 reads a file of 2 blocks that task 1 makes on red. On blue, of 5 blocks, the file fits and W of 4 beside it does not.
fn third_start(rt: &impl Print) -> Result<()> {
    show(
        rt,
        "W of 4 fits start 4 and not start 3",
        b"(board (blue 1 5) (red 1 9))\n(task 1 9 1)\n(task 2 1 9 4)\n(file 1 2 2 1)\n",
    )?;
    show(
        rt,
        "W of 3 fits both",
        b"(board (blue 1 5) (red 1 9))\n(task 1 9 1)\n(task 2 1 9 3)\n(file 1 2 2 1)\n",
    )
}

// Two tasks that could run at once, but for their W.
fn waiting(rt: &impl Print) -> Result<()> {
    show(
        rt,
        "two of W 3 on 5 blocks: the second waits",
        b"(board (blue 2 5) (red 1 0))\n(task 1 4 9 3)\n(task 2 4 9 3)\n",
    )?;
    show(
        rt,
        "limits of all W: none waits",
        b"(board (blue 2 6) (red 1 6))\n(task 1 4 9 3)\n(task 2 4 9 3)\n",
    )?;
    show(
        rt,
        "W left out: none waits",
        b"(board (blue 2 5) (red 1 0))\n(task 1 4 9)\n(task 2 4 9)\n",
    )?;
    show(
        rt,
        "relays of W 3: the second waits one tick",
        b"(board (blue 2 5) (red 1 0))\n(task 1 0 9 3)\n(task 2 0 9 3)\n",
    )
}

// A file of 2 blocks and W of 1 and 3: all together 6.
fn ample(rt: &impl Print) -> Result<()> {
    show(
        rt,
        "limits of all files and all W",
        b"(board (blue 1 6) (red 1 6))\n(task 1 9 1 1)\n(task 2 1 9 3)\n(file 1 2 2 1)\n",
    )?;
    show(
        rt,
        "limits of all files alone",
        b"(board (blue 1 2) (red 1 2))\n(task 1 9 1 1)\n(task 2 1 9 3)\n(file 1 2 2 1)\n",
    )
}

pub fn examples(rt: &impl Print) -> Result<()> {
    alone(rt)?;
    third_start(rt)?;
    waiting(rt)?;
    ample(rt)
}
