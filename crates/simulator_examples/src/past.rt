// Steps named past the end or past a stop, up to the largest numbers: they give that end or stop.
use crate::course::course;
use crate::show::show_marked;
use std::io::Result;

// The course example has six steps.
fn past_the_end(rt: &impl Print) -> Result<()> {
    course(rt, "7 steps where there are 6", 0, 7)?;
    course(rt, "1024 steps", 0, 1024)?;
    course(rt, "1025 steps, which count as 1024", 0, 1025)?;
    course(rt, "from 7 made, no step", 7, 0)?;
    course(rt, "from 1025 made, no step", 1025, 0)?;
    course(rt, "2^64 - 1 steps", 0, u64::MAX)?;
    course(rt, "from 1 made, 2^64 - 1 steps", 1, u64::MAX)?;
    course(rt, "from 2^64 - 1 made, no step", u64::MAX, 0)?;
    course(rt, "from 2^64 - 1 made, 1 step", u64::MAX, 1)?;
    course(rt, "from 2^64 - 1 made, as many steps", u64::MAX, u64::MAX)
}

// The course example with blue limit 4: the fourth step would go to tick 4, where blue holds 5.
fn stopping(rt: &impl Print, what: &str, made: u64, steps: u64) -> Result<()> {
    show_marked(
        rt,
        what,
        b"(board (blue 1 4) (red 1 6))\n(task 1 4 2)\n(task 2 3 5)\n(task 3 2 6)\n(file 1 2 2 1)\n(file 1 3 3 2)\n",
        b"(run 1 2 0)\n(run 2 1 3)\n(run 3 1 6)\n(move 1 2 2)\n(move 1 3 4)\n(claim 8 5 5)\n",
        made,
        steps,
    )
}

fn at_a_stop(rt: &impl Print) -> Result<()> {
    stopping(rt, "blue limit 4, 3 steps: the fault is still ahead", 0, 3)?;
    stopping(
        rt,
        "17: the fourth step meets it, and leaves the state of the third",
        0,
        4,
    )?;
    stopping(rt, "17: the same from 3 made, by one step more", 3, 1)?;
    stopping(rt, "from 3 made, no step: the fault is ahead again", 3, 0)
}

fn past_a_stop(rt: &impl Print) -> Result<()> {
    stopping(rt, "17: 5 steps where 3 can be made", 0, 5)?;
    stopping(rt, "17: 1025 steps, which count as 1024", 0, 1025)?;
    stopping(rt, "17: from 4 made, no step", 4, 0)?;
    stopping(rt, "17: from 1025 made, no step", 1025, 0)?;
    stopping(rt, "17: 2^64 - 1 steps", 0, u64::MAX)?;
    stopping(rt, "17: from 1 made, 2^64 - 1 steps", 1, u64::MAX)?;
    stopping(rt, "17: from 2^64 - 1 made, no step", u64::MAX, 0)?;
    stopping(rt, "17: from 2^64 - 1 made, 1 step", u64::MAX, 1)?;
    stopping(
        rt,
        "17: from 2^64 - 1 made, as many steps",
        u64::MAX,
        u64::MAX,
    )
}

pub fn examples(rt: &impl Print) -> Result<()> {
    past_the_end(rt)?;
    at_a_stop(rt)?;
    past_a_stop(rt)
}
