// Timetables of converted sheets worked out by hand.
use crate::show::stripped;
use console::{convert, show_verdict, written_text};
use std::io::Result;

// A timetable of the converted sheet: how it is marked there, and what is left of it.
fn show(rt: &impl Print, what: &str, sheet: &[u8], paper: &[u8]) -> Result<()> {
    let mut out = io::large_buffer();
    let written = convert(sheet, &mut out);
    show_verdict(rt, what, written_text(written, &out), paper)?;
    stripped(rt, "stripped", sheet, paper)
}

// The course example with W 1 for its first and its last task: they are 3 and 5 now, served by 1 and 2.
fn course(rt: &impl Print) -> Result<()> {
    let sheet =
        b"(board (blue 1 6) (red 1 6))\n(task 1 4 2 1)\n(task 2 3 5)\n(task 3 2 6 1)\n(file 1 2 2 1)\n(file 1 3 3 2)\n";
    // task 2 runs on red, and its file moves: in blue it is held from 5 on, beside 2 and 3; W is held from 6 on, beside 3
    show(
        rt,
        "an added task on the other colour",
        sheet,
        b"(run 1 2 0)\n(run 2 2 2)\n(run 3 2 0)\n(run 4 1 3)\n(run 5 1 6)\n(move 2 5 5)\n(move 3 4 2)\n(move 3 5 4)\n(claim 8 6 6)\n",
    )?;
    // the same with each added task where and when the one that it serves starts: its file is held just as W is
    show(
        rt,
        "added tasks with those they serve",
        sheet,
        b"(run 1 2 0)\n(run 2 1 6)\n(run 3 2 0)\n(run 4 1 3)\n(run 5 1 6)\n(move 3 4 2)\n(move 3 5 4)\n(claim 8 5 6)\n",
    )?;
    // task 2 on blue at 3: from 4 on its file is held beside 2 and 3
    show(
        rt,
        "an added task early",
        sheet,
        b"(run 1 2 0)\n(run 2 1 3)\n(run 3 2 0)\n(run 4 1 3)\n(run 5 1 6)\n(move 3 4 2)\n(move 3 5 4)\n(claim 8 6 6)\n",
    )
}

// A relay of W 5 at tick 2, which holds W until 3. Its added task is at 2 too, or at 0, and its file then held from 0 on.
fn relay(rt: &impl Print) -> Result<()> {
    let sheet = b"(board (blue 1 5) (red 1 3))\n(task 1 0 9 5)\n";
    show(
        rt,
        "a relay with W",
        sheet,
        b"(run 1 1 2)\n(run 2 1 2)\n(claim 2 5 0)\n",
    )?;
    show(
        rt,
        "its added task sooner",
        sheet,
        b"(run 1 1 0)\n(run 2 1 2)\n(claim 2 5 0)\n",
    )
}

// Nothing is added, so nothing is stripped.
fn without_work(rt: &impl Print) -> Result<()> {
    show(
        rt,
        "the course example, without W",
        b"(board (blue 1 6) (red 1 6))\n(task 1 4 2)\n(task 2 3 5)\n(task 3 2 6)\n(file 1 2 2 1)\n(file 1 3 3 2)\n",
        b"(run 1 2 0)\n(run 2 1 3)\n(run 3 1 6)\n(move 1 2 2)\n(move 1 3 4)\n(claim 8 5 5)\n",
    )
}

pub fn examples(rt: &impl Print) -> Result<()> {
    course(rt)?;
    relay(rt)?;
    without_work(rt)
}
