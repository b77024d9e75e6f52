// Texts that are refused: the marker's refusal whatever steps are named, with the state before the first.
use crate::show::show_marked;
use rules::Board;
use std::io::Result;

// The sheet's faults. A refused sheet has no processors and no files to list.
fn sheets(rt: &impl Print) -> Result<()> {
    let paper =
        b"(run 1 2 0)\n(run 2 1 3)\n(run 3 1 6)\n(move 1 2 2)\n(move 1 3 4)\n(claim 8 5 5)\n";
    show_marked(
        rt,
        "2: the board line alone, from 2 made, 3 steps",
        b"(board (blue 1 6) (red 1 6))\n",
        paper,
        2,
        3,
    )?;
    show_marked(
        rt,
        "2 before 12: a bad line in both texts",
        b"(board (blue 1 6) (red 1 6))\n",
        b"(run 1 2 0)\n(run 2 01 3)\n(run 3 1 6)\n(move 1 2 2)\n(move 1 3 4)\n(claim 8 5 5)\n",
        0,
        1024,
    )?;
    show_marked(
        rt,
        "1: a sheet that is too long",
        &[b'\n'; Board::MAX_TEXT + 1],
        paper,
        2,
        3,
    )
}

// The timetable's faults.
fn timetables(rt: &impl Print) -> Result<()> {
    let sheet =
        b"(board (blue 1 6) (red 1 6))\n(task 1 4 2)\n(task 2 3 5)\n(task 3 2 6)\n(file 1 2 2 1)\n(file 1 3 3 2)\n";
    show_marked(
        rt,
        "14: a move left out, from 2 made, 3 steps",
        sheet,
        b"(run 1 2 0)\n(run 2 1 3)\n(run 3 1 6)\n(move 1 3 4)\n(claim 8 5 5)\n",
        2,
        3,
    )?;
    show_marked(
        rt,
        "12: a leading zero, no step",
        sheet,
        b"(run 1 2 0)\n(run 2 01 3)\n(run 3 1 6)\n(move 1 2 2)\n(move 1 3 4)\n(claim 8 5 5)\n",
        0,
        0,
    )?;
    show_marked(
        rt,
        "12 before 16: no LF behind the claim, and an early move",
        sheet,
        b"(run 1 2 0)\n(run 2 1 3)\n(run 3 1 6)\n(move 1 2 1)\n(move 1 3 4)\n(claim 8 5 5)",
        0,
        1024,
    )?;
    show_marked(
        rt,
        "11: a timetable that is too long",
        sheet,
        &[b'\n'; Board::MAX_TEXT + 1],
        2,
        3,
    )
}

pub fn examples(rt: &impl Print) -> Result<()> {
    sheets(rt)?;
    timetables(rt)
}
