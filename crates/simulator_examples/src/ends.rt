// Timetables without a fault: at a limit, with an untrue claim, and with files of size 0.
use crate::show::show_marked;
use std::io::Result;

// What is held may be as much as the limit.
fn at_a_limit(rt: &impl Print) -> Result<()> {
    show_marked(
        rt,
        "blue limit 5, and so much in blue at 4: no fault",
        b"(board (blue 1 5) (red 1 6))\n(task 1 4 2)\n(task 2 3 5)\n(task 3 2 6)\n(file 1 2 2 1)\n(file 1 3 3 2)\n",
        b"(run 1 2 0)\n(run 2 1 3)\n(run 3 1 6)\n(move 1 2 2)\n(move 1 3 4)\n(claim 8 5 5)\n",
        0,
        1024,
    )
}

// An untrue claim is no fault here: it ends with the true span.
fn untrue_claims(rt: &impl Print) -> Result<()> {
    let sheet =
        b"(board (blue 1 6) (red 1 6))\n(task 1 4 2)\n(task 2 3 5)\n(task 3 2 6)\n(file 1 2 2 1)\n(file 1 3 3 2)\n";
    show_marked(
        rt,
        "an untrue claim: the end, with the true span",
        sheet,
        b"(run 1 2 0)\n(run 2 1 3)\n(run 3 1 6)\n(move 1 2 2)\n(move 1 3 4)\n(claim 9 5 5)\n",
        0,
        1024,
    )?;
    show_marked(
        rt,
        "a span longer than the one claimed",
        sheet,
        b"(run 1 2 0)\n(run 2 1 3)\n(run 3 1 999999999)\n(move 1 2 2)\n(move 1 3 4)\n(claim 999999999 5 5)\n",
        0,
        1024,
    )
}

// The course example with a first file of size 0, with the steps already made and those to make.
fn first_empty(rt: &impl Print, what: &str, made: u64, steps: u64) -> Result<()> {
    show_marked(
        rt,
        what,
        b"(board (blue 1 6) (red 1 6))\n(task 1 4 2)\n(task 2 3 5)\n(task 3 2 6)\n(file 1 2 0 1)\n(file 1 3 3 2)\n",
        b"(run 1 2 0)\n(run 2 1 3)\n(run 3 1 6)\n(move 1 2 2)\n(move 1 3 4)\n(claim 8 3 3)\n",
        made,
        steps,
    )
}

// A file of size 0 is held as any other.
fn size_zero(rt: &impl Print) -> Result<()> {
    first_empty(rt, "a first file of size 0: in red", 0, 1)?;
    first_empty(rt, "in both, while it moves", 1, 1)?;
    first_empty(rt, "in blue", 2, 1)?;
    show_marked(
        rt,
        "both files of size 0, and both limits 0: held all the same",
        b"(board (blue 1 0) (red 1 0))\n(task 1 4 2)\n(task 2 3 5)\n(task 3 2 6)\n(file 1 2 0 1)\n(file 1 3 0 2)\n",
        b"(run 1 2 0)\n(run 2 1 3)\n(run 3 1 6)\n(move 1 2 2)\n(move 1 3 4)\n(claim 8 0 0)\n",
        0,
        4,
    )
}

pub fn examples(rt: &impl Print) -> Result<()> {
    at_a_limit(rt)?;
    untrue_claims(rt)?;
    size_zero(rt)
}
