// Timetables of tasks with W: where W is held, and how long.
use console::show_verdict as show;
use std::io::Result;

// A W of 5, on a board with 5 blocks of blue memory and 3 of red.
fn alone(rt: &impl Print) -> Result<()> {
    let sheet = b"(board (blue 1 5) (red 1 3))\n(task 1 4 2 5)\n";
    show(
        rt,
        "W of 5 on blue, held in blue alone",
        sheet,
        b"(run 1 1 0)\n(claim 4 5 0)\n",
    )?;
    show(
        rt,
        "17: W of 5 on red, alone over the limit",
        sheet,
        b"(run 1 2 0)\n(claim 2 0 5)\n",
    )?;
    show(
        rt,
        "17: the same from tick 7 on",
        sheet,
        b"(run 1 2 7)\n(claim 9 0 5)\n",
    )?;
    show(
        rt,
        "18: a claim without W",
        sheet,
        b"(run 1 1 0)\n(claim 4 0 0)\n",
    )?;
    show(
        rt,
        "18: a claim with W in red",
        sheet,
        b"(run 1 1 0)\n(claim 4 0 5)\n",
    )
}

// Two tasks of W 3, one after the other and at once, on 5 blocks.
fn together(rt: &impl Print) -> Result<()> {
    let sheet = b"(board (blue 2 5) (red 1 0))\n(task 1 4 9 3)\n(task 2 4 9 3)\n";
    show(
        rt,
        "17: the second starts at 3, while the first runs",
        sheet,
        b"(run 1 1 0)\n(run 2 2 3)\n(claim 7 6 0)\n",
    )?;
    show(
        rt,
        "the second starts at 4, the first's finish",
        sheet,
        b"(run 1 1 0)\n(run 2 2 4)\n(claim 8 3 0)\n",
    )
}

// Relays: W is held until the tick after the start.
fn relays(rt: &impl Print) -> Result<()> {
    let sheet = b"(board (blue 1 5) (red 1 3))\n(task 1 0 9 5)\n(task 2 0 9 5)\n";
    show(
        rt,
        "17: two relays of W 5 at one tick",
        sheet,
        b"(run 1 1 2)\n(run 2 1 2)\n(claim 2 10 0)\n",
    )?;
    show(
        rt,
        "one of them a tick later",
        sheet,
        b"(run 1 1 2)\n(run 2 1 3)\n(claim 3 5 0)\n",
    )?;
    show(
        rt,
        "17: a relay on blue is none on red, where its W is held for 9 ticks",
        b"(board (blue 1 5) (red 2 5))\n(task 1 0 9 5)\n(task 2 0 9 5)\n",
        b"(run 1 2 2)\n(run 2 3 3)\n(claim 12 0 10)\n",
    )
}

// W of task 2, 4 blocks, beside the file that it reads, 2, and the one that it makes, 3.
fn beside_files(rt: &impl Print) -> Result<()> {
    let tasks = b"(run 1 1 0)\n(run 2 1 1)\n(run 3 1 3)\n(claim 4 9 0)\n";
    show(
        rt,
        "W of 4 beside files of 2 and 3, on 9 blocks",
        b"(board (blue 1 9) (red 1 0))\n(task 1 1 9)\n(task 2 2 9 4)\n(task 3 1 9)\n(file 1 2 2 1)\n(file 2 3 3 1)\n",
        tasks,
    )?;
    show(
        rt,
        "17: on 8",
        b"(board (blue 1 8) (red 1 0))\n(task 1 1 9)\n(task 2 2 9 4)\n(task 3 1 9)\n(file 1 2 2 1)\n(file 2 3 3 1)\n",
        tasks,
    )
}

// A file that moves from red to blue, for a task of W 4: while it moves W is not held yet.
fn while_moving(rt: &impl Print) -> Result<()> {
    let paper = b"(run 1 2 0)\n(run 2 1 5)\n(move 1 2 1)\n(claim 6 6 2)\n";
    show(
        rt,
        "a file of 2 moves at 1, W of 4 is held from 5 on: 6 blocks",
        b"(board (blue 1 6) (red 1 2))\n(task 1 9 1)\n(task 2 1 9 4)\n(file 1 2 2 4)\n",
        paper,
    )?;
    show(
        rt,
        "17: on 5, at 5 and not at 1",
        b"(board (blue 1 5) (red 1 2))\n(task 1 9 1)\n(task 2 1 9 4)\n(file 1 2 2 4)\n",
        paper,
    )
}

pub fn examples(rt: &impl Print) -> Result<()> {
    alone(rt)?;
    together(rt)?;
    relays(rt)?;
    beside_files(rt)?;
    while_moving(rt)
}
