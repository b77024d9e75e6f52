// Peaks and the first instant over a limit where several changes come at one tick, or have size 0, or are in both memories (Order 8).
use crate::show;
use std::io::Result;

// The first file falls where the second rises: what ends at a tick is not held there.
fn falls_first(rt: &impl Print) -> Result<()> {
    show(
        rt,
        "a fall and a rise at tick 2: 3 blocks are enough",
        b"(board (blue 1 3) (red 1 0))\n(task 1 1 1)\n(task 2 1 1)\n(task 3 1 1)\n(task 4 1 1)\n(file 1 2 3 1)\n(file 3 4 2 1)\n",
        b"(run 1 1 0)\n(run 2 1 1)\n(run 3 1 2)\n(run 4 1 3)\n(claim 4 3 0)\n",
    )?;
    show(
        rt,
        "a fall of 3 and a rise of 4 at tick 2, over 3",
        b"(board (blue 1 3) (red 1 0))\n(task 1 1 1)\n(task 2 1 1)\n(task 3 1 1)\n(task 4 1 1)\n(file 1 2 3 1)\n(file 3 4 4 1)\n",
        b"(run 1 1 0)\n(run 2 1 1)\n(run 3 1 2)\n(run 4 1 3)\n(claim 4 4 0)\n",
    )?;
    show(
        rt,
        "two rises at tick 0, over 5 by the second",
        b"(board (blue 2 5) (red 1 0))\n(task 1 1 1)\n(task 2 1 1)\n(task 3 1 1)\n(file 1 2 2 1)\n(file 1 3 4 1)\n",
        b"(run 1 1 0)\n(run 2 1 1)\n(run 3 2 1)\n(claim 2 6 0)\n",
    )
}

// A file of size 0 rises and falls too, and takes nothing.
fn size_0(rt: &impl Print) -> Result<()> {
    show(
        rt,
        "a file of size 0 first, one over the limit behind it",
        b"(board (blue 1 3) (red 1 0))\n(task 1 1 1)\n(task 2 1 1)\n(task 3 1 1)\n(task 4 1 1)\n(file 1 2 0 1)\n(file 3 4 4 1)\n",
        b"(run 1 1 0)\n(run 2 1 1)\n(run 3 1 2)\n(run 4 1 3)\n(claim 4 4 0)\n",
    )?;
    show(
        rt,
        "files of size 0 at the ticks of others, limits of 2",
        b"(board (blue 1 2) (red 1 2))\n(task 1 4 2)\n(task 2 3 5)\n(task 3 2 6)\n(file 1 2 2 1)\n(file 1 3 0 2)\n",
        b"(run 1 2 0)\n(run 2 1 3)\n(run 3 1 6)\n(move 1 2 2)\n(move 1 3 2)\n(claim 8 2 2)\n",
    )?;
    show(
        rt,
        "nothing but size 0, limits of 0",
        b"(board (blue 1 0) (red 1 0))\n(task 1 4 2)\n(task 2 3 5)\n(file 1 2 0 1)\n",
        b"(run 1 2 0)\n(run 2 1 3)\n(move 1 2 2)\n(claim 6 0 0)\n",
    )
}

// The first instant of either memory counts; each has its own peak.
fn both_memories(rt: &impl Print) -> Result<()> {
    show(
        rt,
        "red over at 0, blue at 4",
        b"(board (blue 1 4) (red 1 4))\n(task 1 4 2)\n(task 2 3 5)\n(task 3 2 6)\n(file 1 2 2 1)\n(file 1 3 3 2)\n",
        b"(run 1 2 0)\n(run 2 1 3)\n(run 3 1 6)\n(move 1 2 2)\n(move 1 3 4)\n(claim 8 5 5)\n",
    )?;
    show(
        rt,
        "blue over at 0, red at 4",
        b"(board (blue 1 4) (red 1 4))\n(task 1 2 4)\n(task 2 5 3)\n(task 3 6 2)\n(file 1 2 2 1)\n(file 1 3 3 2)\n",
        b"(run 1 1 0)\n(run 2 2 3)\n(run 3 2 6)\n(move 1 2 2)\n(move 1 3 4)\n(claim 8 5 5)\n",
    )?;
    show(
        rt,
        "the red peak below the blue one",
        b"(board (blue 1 9) (red 1 9))\n(task 1 1 1)\n(task 2 1 1)\n(task 3 1 1)\n(file 1 2 5 1)\n(file 2 3 2 1)\n",
        b"(run 1 1 0)\n(run 2 1 1)\n(run 3 2 3)\n(move 2 3 2)\n(claim 4 7 2)\n",
    )?;
    show(
        rt,
        "working memory and a relay's input at its tick",
        b"(board (blue 1 6) (red 1 0))\n(task 1 1 1)\n(task 2 0 0 3)\n(task 3 1 1)\n(file 1 2 2 1)\n(file 2 3 1 1)\n",
        b"(run 1 1 0)\n(run 2 1 1)\n(run 3 1 1)\n(claim 2 6 0)\n",
    )
}

pub fn by_changes(rt: &impl Print) -> Result<()> {
    falls_first(rt)?;
    size_0(rt)?;
    both_memories(rt)
}
