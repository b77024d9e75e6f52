// Task lines with W: each with the timetable that is right for a task of 4 ticks on blue.
use console::show_marks as show;
use std::io::Result;

// W from 1 to 1000000; left out, it is 0.
fn ranges(rt: &impl Print) -> Result<()> {
    show(
        rt,
        "W left out",
        b"(board (blue 1 0) (red 1 0))\n(task 1 4 2)\n",
        b"(run 1 1 0)\n(claim 4 0 0)\n",
    )?;
    show(
        rt,
        "W of 1",
        b"(board (blue 1 1) (red 1 0))\n(task 1 4 2 1)\n",
        b"(run 1 1 0)\n(claim 4 1 0)\n",
    )?;
    show(
        rt,
        "W of 1000000",
        b"(board (blue 1 1000000) (red 1 0))\n(task 1 4 2 1000000)\n",
        b"(run 1 1 0)\n(claim 4 1000000 0)\n",
    )?;
    show(
        rt,
        "3: a written 0",
        b"(board (blue 1 0) (red 1 0))\n(task 1 4 2 0)\n",
        b"(run 1 1 0)\n(claim 4 0 0)\n",
    )?;
    show(
        rt,
        "3: W of 1000001",
        b"(board (blue 1 1000001) (red 1 0))\n(task 1 4 2 1000001)\n",
        b"(run 1 1 0)\n(claim 4 1000001 0)\n",
    )?;
    show(
        rt,
        "3: W of 12 digits",
        b"(board (blue 1 0) (red 1 0))\n(task 1 4 2 999999999999)\n",
        b"",
    )
}

// Lines that have neither form of a task's line.
fn forms(rt: &impl Print) -> Result<()> {
    show(
        rt,
        "2: W of 13 digits",
        b"(board (blue 1 0) (red 1 0))\n(task 1 4 2 1000000000000)\n",
        b"",
    )?;
    show(
        rt,
        "2: W with a leading zero",
        b"(board (blue 1 5) (red 1 0))\n(task 1 4 2 05)\n",
        b"",
    )?;
    show(
        rt,
        "2: a space and no W",
        b"(board (blue 1 5) (red 1 0))\n(task 1 4 2 )\n",
        b"",
    )?;
    show(
        rt,
        "2: a number behind W",
        b"(board (blue 1 5) (red 1 0))\n(task 1 4 2 5 5)\n",
        b"",
    )?;
    show(
        rt,
        "2: W without its LF",
        b"(board (blue 1 5) (red 1 0))\n(task 1 4 2 5)",
        b"",
    )
}

// A readable line that is not the next; a number out of range is told first.
fn order(rt: &impl Print) -> Result<()> {
    show(
        rt,
        "4: not the next task",
        b"(board (blue 1 5) (red 1 0))\n(task 2 4 2 5)\n",
        b"",
    )?;
    show(
        rt,
        "3: not the next task either, with a written 0",
        b"(board (blue 1 5) (red 1 0))\n(task 2 4 2 0)\n",
        b"",
    )?;
    show(
        rt,
        "4: a task with W behind a file",
        b"(board (blue 1 5) (red 1 0))\n(task 1 4 2)\n(task 2 4 2 5)\n(file 1 2 0 1)\n(task 3 4 2 5)\n",
        b"",
    )
}

pub fn examples(rt: &impl Print) -> Result<()> {
    ranges(rt)?;
    forms(rt)?;
    order(rt)
}
