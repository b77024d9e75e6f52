// Timetables with relays marked, tasks of run time 0 on the colour that they run on: where one may stand, and what it holds (Order 1).
#![tactic(auto)]

use console::show_verdict as show;
use std::io::Result;

// Task 1 takes time; task 2 is a relay on blue, and takes time on red.
fn beside_a_run(rt: &impl Print) -> Result<()> {
    let sheet = b"(board (blue 1 0) (red 1 0))\n(task 1 4 4)\n(task 2 0 3)\n";
    show(
        rt,
        "15: a relay inside a run, the higher task of the two",
        sheet,
        b"(run 1 1 0)\n(run 2 1 2)\n(claim 4 0 0)\n",
    )?;
    show(
        rt,
        "15: a relay one tick after the start of a run",
        sheet,
        b"(run 1 1 3)\n(run 2 1 4)\n(claim 7 0 0)\n",
    )?;
    show(
        rt,
        "15: a relay one tick before the finish of a run",
        sheet,
        b"(run 1 1 3)\n(run 2 1 6)\n(claim 7 0 0)\n",
    )?;
    show(
        rt,
        "a relay at the start of a run",
        sheet,
        b"(run 1 1 3)\n(run 2 1 3)\n(claim 7 0 0)\n",
    )?;
    show(
        rt,
        "a relay at the finish of a run",
        sheet,
        b"(run 1 1 3)\n(run 2 1 7)\n(claim 7 0 0)\n",
    )?;
    show(
        rt,
        "a relay and a run from tick 0",
        sheet,
        b"(run 1 1 0)\n(run 2 1 0)\n(claim 4 0 0)\n",
    )?;
    show(
        rt,
        "15: no relay on red, at the start of a run",
        sheet,
        b"(run 1 2 0)\n(run 2 2 0)\n(claim 4 0 0)\n",
    )?;
    show(
        rt,
        "15: no relay on red, one tick before the finish of a run",
        sheet,
        b"(run 1 2 0)\n(run 2 2 3)\n(claim 6 0 0)\n",
    )?;
    show(
        rt,
        "no relay on red, at the finish of a run",
        sheet,
        b"(run 1 2 0)\n(run 2 2 4)\n(claim 7 0 0)\n",
    )
}

// The other way round: task 2 takes time on blue, and is a relay on red.
fn beside_a_red_run(rt: &impl Print) -> Result<()> {
    let sheet = b"(board (blue 1 0) (red 1 0))\n(task 1 4 4)\n(task 2 3 0)\n";
    show(
        rt,
        "15: a relay inside a run on red",
        sheet,
        b"(run 1 2 0)\n(run 2 2 2)\n(claim 4 0 0)\n",
    )?;
    show(
        rt,
        "a relay at the start of a run on red",
        sheet,
        b"(run 1 2 3)\n(run 2 2 3)\n(claim 7 0 0)\n",
    )?;
    show(
        rt,
        "15: no relay on blue, at the start of a run",
        sheet,
        b"(run 1 1 3)\n(run 2 1 3)\n(claim 7 0 0)\n",
    )
}

// Relays beside several runs, and beside each other.
fn beside_others(rt: &impl Print) -> Result<()> {
    show(
        rt,
        "15: a relay inside a run, the lower task of the two",
        b"(board (blue 1 0) (red 1 0))\n(task 1 0 3)\n(task 2 4 4)\n",
        b"(run 1 1 2)\n(run 2 1 0)\n(claim 4 0 0)\n",
    )?;
    show(
        rt,
        "15: the lowest of the two, and not a lower task before them",
        b"(board (blue 1 0) (red 1 0))\n(task 1 1 1)\n(task 2 4 4)\n(task 3 0 3)\n",
        b"(run 1 1 0)\n(run 2 1 1)\n(run 3 1 3)\n(claim 5 0 0)\n",
    )?;
    show(
        rt,
        "15: the lowest of the two, and not a relay at the start",
        b"(board (blue 1 0) (red 1 0))\n(task 1 0 3)\n(task 2 0 3)\n(task 3 4 4)\n",
        b"(run 1 1 0)\n(run 2 1 2)\n(run 3 1 0)\n(claim 4 0 0)\n",
    )?;
    show(
        rt,
        "a relay where one run ends and the next starts",
        b"(board (blue 1 0) (red 1 0))\n(task 1 4 4)\n(task 2 0 3)\n(task 3 2 2)\n",
        b"(run 1 1 0)\n(run 2 1 4)\n(run 3 1 4)\n(claim 6 0 0)\n",
    )?;
    show(
        rt,
        "a relay beside a run of another processor",
        b"(board (blue 2 0) (red 1 0))\n(task 1 4 4)\n(task 2 0 3)\n",
        b"(run 1 1 0)\n(run 2 2 2)\n(claim 4 0 0)\n",
    )?;
    show(
        rt,
        "two relays at one tick",
        b"(board (blue 1 0) (red 1 0))\n(task 1 0 3)\n(task 2 0 3)\n",
        b"(run 1 1 3)\n(run 2 1 3)\n(claim 3 0 0)\n",
    )?;
    show(
        rt,
        "three relays at one tick",
        b"(board (blue 1 0) (red 1 0))\n(task 1 0 3)\n(task 2 0 3)\n(task 3 0 3)\n",
        b"(run 1 1 3)\n(run 2 1 3)\n(run 3 1 3)\n(claim 3 0 0)\n",
    )
}

// A relay and its maker.
fn reading(rt: &impl Print) -> Result<()> {
    let sheet = b"(board (blue 2 1) (red 1 1))\n(task 1 3 3)\n(task 2 0 0)\n(file 1 2 1 2)\n";
    show(
        rt,
        "16: a relay before its file is made",
        sheet,
        b"(run 1 1 0)\n(run 2 2 2)\n(claim 3 1 0)\n",
    )?;
    show(
        rt,
        "15 before 16: a relay inside the run of its maker",
        sheet,
        b"(run 1 1 0)\n(run 2 1 2)\n(claim 3 1 0)\n",
    )?;
    show(
        rt,
        "a relay as soon as its file is made",
        sheet,
        b"(run 1 1 0)\n(run 2 1 3)\n(claim 3 1 0)\n",
    )?;
    show(
        rt,
        "16: a relay before its file has moved",
        sheet,
        b"(run 1 1 0)\n(run 2 3 4)\n(move 1 2 3)\n(claim 4 1 1)\n",
    )?;
    show(
        rt,
        "a relay as soon as its file has moved",
        sheet,
        b"(run 1 1 0)\n(run 2 3 5)\n(move 1 2 3)\n(claim 5 1 1)\n",
    )
}

// A relay and the reader of what it makes.
fn making(rt: &impl Print) -> Result<()> {
    let sheet = b"(board (blue 1 1) (red 1 1))\n(task 1 0 0)\n(task 2 3 3)\n(file 1 2 1 2)\n";
    show(
        rt,
        "16: a reader before the relay that makes its file",
        sheet,
        b"(run 1 1 4)\n(run 2 1 1)\n(claim 4 1 0)\n",
    )?;
    show(
        rt,
        "16: a move before the relay that makes its file",
        sheet,
        b"(run 1 1 4)\n(run 2 2 6)\n(move 1 2 3)\n(claim 9 1 1)\n",
    )?;
    show(
        rt,
        "a reader at the tick of the relay that makes its file",
        sheet,
        b"(run 1 1 4)\n(run 2 1 4)\n(claim 7 1 0)\n",
    )?;
    show(
        rt,
        "a move at the tick of the relay that makes its file",
        sheet,
        b"(run 1 1 4)\n(run 2 2 6)\n(move 1 2 4)\n(claim 9 1 1)\n",
    )
}

// What a relay on blue reads is held until the tick after its start; on red, where it takes time, until its finish.
fn released(rt: &impl Print) -> Result<()> {
    let sheet =
        b"(board (blue 2 4) (red 2 4))\n(task 1 2 2)\n(task 2 0 3)\n(task 3 1 1)\n(task 4 1 1)\n(file 1 2 3 1)\n(file 3 4 4 1)\n";
    show(
        rt,
        "a relay on blue: its file held until the next tick",
        sheet,
        b"(run 1 1 0)\n(run 2 1 2)\n(run 3 1 3)\n(run 4 1 4)\n(claim 5 4 0)\n",
    )?;
    show(
        rt,
        "17: another file at its tick",
        sheet,
        b"(run 1 1 0)\n(run 2 1 2)\n(run 3 1 2)\n(run 4 1 3)\n(claim 4 7 0)\n",
    )?;
    show(
        rt,
        "no relay on red: its file held until its finish",
        sheet,
        b"(run 1 3 0)\n(run 2 3 2)\n(run 3 3 5)\n(run 4 3 6)\n(claim 7 0 4)\n",
    )?;
    show(
        rt,
        "17: another file one tick before",
        sheet,
        b"(run 1 3 0)\n(run 2 3 2)\n(run 3 4 4)\n(run 4 4 5)\n(claim 6 0 7)\n",
    )
}

// A chain of relays at one tick: what each reads and what it makes is held together.
fn chained(rt: &impl Print) -> Result<()> {
    let sheet =
        b"(board (blue 1 7) (red 1 0))\n(task 1 2 9)\n(task 2 0 9)\n(task 3 0 9)\n(task 4 3 9)\n(file 1 2 2 1)\n(file 2 3 4 1)\n(file 3 4 1 1)\n";
    let paper = b"(run 1 1 0)\n(run 2 1 2)\n(run 3 1 2)\n(run 4 1 2)\n(claim 5 7 0)\n";
    show(
        rt,
        "a chain of relays at one tick, all its files together",
        sheet,
        paper,
    )?;
    show(
        rt,
        "17: the same with a limit one less",
        b"(board (blue 1 6) (red 1 0))\n(task 1 2 9)\n(task 2 0 9)\n(task 3 0 9)\n(task 4 3 9)\n(file 1 2 2 1)\n(file 2 3 4 1)\n(file 3 4 1 1)\n",
        paper,
    )?;
    show(
        rt,
        "18: the same without the files that the relays read",
        sheet,
        b"(run 1 1 0)\n(run 2 1 2)\n(run 3 1 2)\n(run 4 1 2)\n(claim 5 2 0)\n",
    )
}

// A relay last of all: what it reads is held at the span.
fn last(rt: &impl Print) -> Result<()> {
    let sheet = b"(board (blue 1 5) (red 1 0))\n(task 1 0 9)\n(task 2 0 9)\n(file 1 2 5 1)\n";
    let paper = b"(run 1 1 3)\n(run 2 1 3)\n(claim 3 5 0)\n";
    show(
        rt,
        "a relay last of all, its file held at the span",
        sheet,
        paper,
    )?;
    show(
        rt,
        "17: the same with a limit one less, at the span",
        b"(board (blue 1 4) (red 1 0))\n(task 1 0 9)\n(task 2 0 9)\n(file 1 2 5 1)\n",
        paper,
    )?;
    show(
        rt,
        "18: the same without the file held at the span",
        sheet,
        b"(run 1 1 3)\n(run 2 1 3)\n(claim 3 0 0)\n",
    )
}

// The same at a tick of nine digits.
fn late_tick(rt: &impl Print) -> Result<()> {
    let paper = b"(run 1 1 999999999)\n(run 2 1 999999999)\n(claim 999999999 5 0)\n";
    show(
        rt,
        "a relay at tick 999999999",
        b"(board (blue 1 5) (red 1 0))\n(task 1 0 9)\n(task 2 0 9)\n(file 1 2 5 1)\n",
        paper,
    )?;
    show(
        rt,
        "17: the same with a limit one less, at that tick",
        b"(board (blue 1 4) (red 1 0))\n(task 1 0 9)\n(task 2 0 9)\n(file 1 2 5 1)\n",
        paper,
    )
}

// Two relays last of all.
fn two_last(rt: &impl Print) -> Result<()> {
    let sheet =
        b"(board (blue 1 7) (red 1 0))\n(task 1 2 9)\n(task 2 0 9)\n(task 3 0 9)\n(file 1 2 3 1)\n(file 2 3 4 1)\n";
    let paper = b"(run 1 1 0)\n(run 2 1 2)\n(run 3 1 2)\n(claim 2 7 0)\n";
    show(
        rt,
        "two relays last of all, both files held at the span",
        sheet,
        paper,
    )?;
    show(
        rt,
        "17: the same with a limit one less, at the span",
        b"(board (blue 1 6) (red 1 0))\n(task 1 2 9)\n(task 2 0 9)\n(task 3 0 9)\n(file 1 2 3 1)\n(file 2 3 4 1)\n",
        paper,
    )?;
    show(
        rt,
        "18: the same with the greater file alone",
        sheet,
        b"(run 1 1 0)\n(run 2 1 2)\n(run 3 1 2)\n(claim 2 4 0)\n",
    )
}

// Relays alone.
fn alone(rt: &impl Print) -> Result<()> {
    let sheet =
        b"(board (blue 1 9) (red 1 9))\n(task 1 0 0)\n(task 2 0 0)\n(task 3 0 0)\n(file 1 2 2 1)\n(file 1 3 3 1)\n(file 2 3 4 1)\n";
    let on_red = b"(run 1 2 0)\n(run 2 2 0)\n(run 3 2 0)\n(claim 0 0 9)\n";
    show(
        rt,
        "all run times 0, on blue",
        sheet,
        b"(run 1 1 0)\n(run 2 1 0)\n(run 3 1 0)\n(claim 0 9 0)\n",
    )?;
    show(rt, "all run times 0, on red", sheet, on_red)?;
    show(
        rt,
        "17: the same with a limit one less, at tick 0",
        b"(board (blue 1 8) (red 1 8))\n(task 1 0 0)\n(task 2 0 0)\n(task 3 0 0)\n(file 1 2 2 1)\n(file 1 3 3 1)\n(file 2 3 4 1)\n",
        on_red,
    )?;
    show(
        rt,
        "all run times 0, no files",
        b"(board (blue 1 0) (red 1 0))\n(task 1 0 0)\n(task 2 0 0)\n",
        b"(run 1 1 0)\n(run 2 2 0)\n(claim 0 0 0)\n",
    )
}

// A chain of relays over both colours.
fn over_colours(rt: &impl Print) -> Result<()> {
    let paper =
        b"(run 1 1 0)\n(run 2 2 3)\n(run 3 1 8)\n(move 1 2 0)\n(move 2 3 3)\n(claim 8 4 6)\n";
    show(
        rt,
        "a chain of relays over both colours",
        b"(board (blue 1 4) (red 1 6))\n(task 1 0 0)\n(task 2 0 0)\n(task 3 0 0)\n(file 1 2 2 3)\n(file 2 3 4 5)\n",
        paper,
    )?;
    show(
        rt,
        "17: the same with a blue limit one less",
        b"(board (blue 1 3) (red 1 6))\n(task 1 0 0)\n(task 2 0 0)\n(task 3 0 0)\n(file 1 2 2 3)\n(file 2 3 4 5)\n",
        paper,
    )?;
    show(
        rt,
        "17: the same with a red limit one less",
        b"(board (blue 1 4) (red 1 5))\n(task 1 0 0)\n(task 2 0 0)\n(task 3 0 0)\n(file 1 2 2 3)\n(file 2 3 4 5)\n",
        paper,
    )
}

// A relay's moved file: on its own side until the tick after its start, on the maker's until it has moved.
fn moved(rt: &impl Print) -> Result<()> {
    let sheet =
        b"(board (blue 1 5) (red 1 5))\n(task 1 2 2)\n(task 2 0 0)\n(task 3 1 1)\n(task 4 1 1)\n(file 1 2 3 4)\n(file 3 4 5 1)\n";
    show(
        rt,
        "a moved file of a relay, held on its side until the next tick",
        sheet,
        b"(run 1 1 0)\n(run 2 2 8)\n(run 3 2 9)\n(run 4 2 10)\n(move 1 2 2)\n(claim 11 3 5)\n",
    )?;
    show(
        rt,
        "17: another file there at its tick",
        sheet,
        b"(run 1 1 0)\n(run 2 2 8)\n(run 3 2 8)\n(run 4 2 9)\n(move 1 2 2)\n(claim 10 3 8)\n",
    )?;
    show(
        rt,
        "a moved file of a relay, held on its maker's side until it has moved",
        sheet,
        b"(run 1 1 0)\n(run 2 2 8)\n(run 3 1 6)\n(run 4 1 7)\n(move 1 2 2)\n(claim 8 5 3)\n",
    )?;
    show(
        rt,
        "17: another file there one tick before",
        sheet,
        b"(run 1 1 0)\n(run 2 2 8)\n(run 3 1 5)\n(run 4 1 6)\n(move 1 2 2)\n(claim 8 8 3)\n",
    )?;
    show(
        rt,
        "a relay as soon as its file has moved, none of it left on the maker's side",
        sheet,
        b"(run 1 1 0)\n(run 2 2 6)\n(run 3 1 6)\n(run 4 1 7)\n(move 1 2 2)\n(claim 8 5 3)\n",
    )
}

// A relay last of all that reads a moved file.
fn moved_last(rt: &impl Print) -> Result<()> {
    let paper = b"(run 1 1 0)\n(run 2 2 6)\n(run 3 2 6)\n(move 1 2 2)\n(claim 6 3 5)\n";
    show(
        rt,
        "a relay last of all, its moved file held at the span",
        b"(board (blue 1 5) (red 1 5))\n(task 1 2 2)\n(task 2 0 0)\n(task 3 0 0)\n(file 1 2 3 4)\n(file 2 3 2 1)\n",
        paper,
    )?;
    show(
        rt,
        "17: the same with a limit one less, at the span",
        b"(board (blue 1 5) (red 1 4))\n(task 1 2 2)\n(task 2 0 0)\n(task 3 0 0)\n(file 1 2 3 4)\n(file 2 3 2 1)\n",
        paper,
    )
}

fn main(rt: HostRuntime) -> Result<()> {
    beside_a_run(&rt)?;
    beside_a_red_run(&rt)?;
    beside_others(&rt)?;
    reading(&rt)?;
    making(&rt)?;
    released(&rt)?;
    chained(&rt)?;
    last(&rt)?;
    late_tick(&rt)?;
    two_last(&rt)?;
    alone(&rt)?;
    over_colours(&rt)?;
    moved(&rt)?;
    moved_last(&rt)
}
