// Timetables marked: examples e to m of document 01, papers that neither MemHEFT nor MemMinMin would make, each refusal, and peaks by changes.
#![tactic(auto)]

mod peaks;

use peaks::by_changes;
use std::io::Result;

// Prints what is shown, the verdict, and the line at fault.
pub fn show(rt: &impl Print, what: &str, sheet: &[u8], paper: &[u8]) -> Result<()> {
    match frames::mark(sheet, paper) {
        Ok(claim) => print!(rt;
            "{what}: 0 0 {} {} {} [",
            claim.span, claim.blue_peak, claim.red_peak
        )?,
        Err(refusal) => print!(rt; "{what}: {} {} 0 0 0 [", refusal.number(), refusal.place())?,
    }
    rt.write_all(frames::fault_line(sheet, paper))?;
    println!(rt; "]")
}

// Document 01's own.
fn examples(rt: &impl Print) -> Result<()> {
    show(
        rt,
        "a: the course example",
        b"(board (blue 1 6) (red 1 6))\n(task 1 4 2)\n(task 2 3 5)\n(task 3 2 6)\n(file 1 2 2 1)\n(file 1 3 3 2)\n",
        b"(run 1 2 0)\n(run 2 1 3)\n(run 3 1 6)\n(move 1 2 2)\n(move 1 3 4)\n(claim 8 5 5)\n",
    )?;
    show(
        rt,
        "e: blue limit 5",
        b"(board (blue 1 5) (red 1 6))\n(task 1 4 2)\n(task 2 3 5)\n(task 3 2 6)\n(file 1 2 2 1)\n(file 1 3 3 2)\n",
        b"(run 1 2 0)\n(run 2 1 3)\n(run 3 1 6)\n(move 1 2 2)\n(move 1 3 4)\n(claim 8 5 5)\n",
    )?;
    show(
        rt,
        "f: blue limit 4",
        b"(board (blue 1 4) (red 1 6))\n(task 1 4 2)\n(task 2 3 5)\n(task 3 2 6)\n(file 1 2 2 1)\n(file 1 3 3 2)\n",
        b"(run 1 2 0)\n(run 2 1 3)\n(run 3 1 6)\n(move 1 2 2)\n(move 1 3 4)\n(claim 8 5 5)\n",
    )?;
    show(
        rt,
        "g: the second move earlier",
        b"(board (blue 1 6) (red 1 6))\n(task 1 4 2)\n(task 2 3 5)\n(task 3 2 6)\n(file 1 2 2 1)\n(file 1 3 3 2)\n",
        b"(run 1 2 0)\n(run 2 1 3)\n(run 3 1 6)\n(move 1 2 2)\n(move 1 3 3)\n(claim 8 5 5)\n",
    )?;
    show(
        rt,
        "h: a move before its file is made",
        b"(board (blue 1 6) (red 1 6))\n(task 1 4 2)\n(task 2 3 5)\n(task 3 2 6)\n(file 1 2 2 1)\n(file 1 3 3 2)\n",
        b"(run 1 2 0)\n(run 2 1 3)\n(run 3 1 6)\n(move 1 2 1)\n(move 1 3 4)\n(claim 8 5 5)\n",
    )?;
    show(
        rt,
        "i: two runs share an instant, and an early start",
        b"(board (blue 1 6) (red 1 6))\n(task 1 4 2)\n(task 2 3 5)\n(task 3 2 6)\n(file 1 2 2 1)\n(file 1 3 3 2)\n",
        b"(run 1 2 0)\n(run 2 1 3)\n(run 3 1 5)\n(move 1 2 2)\n(move 1 3 4)\n(claim 8 5 5)\n",
    )?;
    show(
        rt,
        "j: the claim untrue",
        b"(board (blue 1 6) (red 1 6))\n(task 1 4 2)\n(task 2 3 5)\n(task 3 2 6)\n(file 1 2 2 1)\n(file 1 3 3 2)\n",
        b"(run 1 2 0)\n(run 2 1 3)\n(run 3 1 6)\n(move 1 2 2)\n(move 1 3 4)\n(claim 9 5 5)\n",
    )?;
    show(
        rt,
        "k: a move left out",
        b"(board (blue 1 6) (red 1 6))\n(task 1 4 2)\n(task 2 3 5)\n(task 3 2 6)\n(file 1 2 2 1)\n(file 1 3 3 2)\n",
        b"(run 1 2 0)\n(run 2 1 3)\n(run 3 1 6)\n(move 1 3 4)\n(claim 8 5 5)\n",
    )?;
    show(
        rt,
        "l: a leading zero",
        b"(board (blue 1 6) (red 1 6))\n(task 1 4 2)\n(task 2 3 5)\n(task 3 2 6)\n(file 1 2 2 1)\n(file 1 3 3 2)\n",
        b"(run 1 2 0)\n(run 2 01 3)\n(run 3 1 6)\n(move 1 2 2)\n(move 1 3 4)\n(claim 8 5 5)\n",
    )?;
    show(
        rt,
        "m: the board line alone",
        b"(board (blue 1 6) (red 1 6))\n",
        b"(run 1 2 0)\n(run 2 1 3)\n(run 3 1 6)\n(move 1 2 2)\n(move 1 3 4)\n(claim 8 5 5)\n",
    )
}

// Valid, though neither MemHEFT nor MemMinMin would make them.
fn unusual(rt: &impl Print) -> Result<()> {
    show(
        rt,
        "idle gaps",
        b"(board (blue 1 6) (red 1 6))\n(task 1 4 2)\n(task 2 3 5)\n(task 3 2 6)\n(file 1 2 2 1)\n(file 1 3 3 2)\n",
        b"(run 1 2 3)\n(run 2 1 9)\n(run 3 1 20)\n(move 1 2 6)\n(move 1 3 12)\n(claim 22 3 5)\n",
    )?;
    show(
        rt,
        "moves as early as they may be",
        b"(board (blue 1 6) (red 1 6))\n(task 1 4 2)\n(task 2 3 5)\n(task 3 2 6)\n(file 1 2 2 1)\n(file 1 3 3 2)\n",
        b"(run 1 2 0)\n(run 2 1 3)\n(run 3 1 6)\n(move 1 2 2)\n(move 1 3 2)\n(claim 8 5 5)\n",
    )?;
    show(
        rt,
        "all on one colour",
        b"(board (blue 1 6) (red 1 6))\n(task 1 4 2)\n(task 2 3 5)\n(task 3 2 6)\n(file 1 2 2 1)\n(file 1 3 3 2)\n",
        b"(run 1 1 0)\n(run 2 1 4)\n(run 3 1 7)\n(claim 9 5 0)\n",
    )?;
    show(
        rt,
        "a worse processor",
        b"(board (blue 3 9) (red 1 9))\n(task 1 5 9)\n(task 2 5 9)\n(file 1 2 1 1)\n",
        b"(run 1 3 0)\n(run 2 2 5)\n(claim 10 1 0)\n",
    )
}

// Faults of the texts.
fn text_faults(rt: &impl Print) -> Result<()> {
    show(
        rt,
        "2 before the timetable's faults",
        b"(board (blue 1 6) (red 1 6))\n(task 1 4 2)\n(task 2 3 5",
        b"(run",
    )?;
    show(
        rt,
        "3: nine processors",
        b"(board (blue 9 6) (red 1 6))\n(task 1 4 2)\n",
        b"(run 1 1 0)\n(claim 4 0 0)\n",
    )?;
    show(
        rt,
        "4: a gap in the task numbers",
        b"(board (blue 1 6) (red 1 6))\n(task 1 4 2)\n(task 3 4 2)\n",
        b"(run 1 1 0)\n(claim 4 0 0)\n",
    )?;
    show(
        rt,
        "12: the last LF is missing",
        b"(board (blue 1 6) (red 1 6))\n(task 1 4 2)\n(task 2 3 5)\n(task 3 2 6)\n(file 1 2 2 1)\n(file 1 3 3 2)\n",
        b"(run 1 2 0)\n(run 2 1 3)\n(run 3 1 6)\n(move 1 2 2)\n(move 1 3 4)\n(claim 8 5 5)",
    )?;
    show(
        rt,
        "12: the text ends before the claim",
        b"(board (blue 1 6) (red 1 6))\n(task 1 4 2)\n(task 2 3 5)\n(task 3 2 6)\n(file 1 2 2 1)\n(file 1 3 3 2)\n",
        b"(run 1 2 0)\n(run 2 1 3)\n(run 3 1 6)\n(move 1 2 2)\n(move 1 3 4)\n",
    )?;
    show(
        rt,
        "12: an empty line behind the claim",
        b"(board (blue 1 6) (red 1 6))\n(task 1 4 2)\n(task 2 3 5)\n(task 3 2 6)\n(file 1 2 2 1)\n(file 1 3 3 2)\n",
        b"(run 1 2 0)\n(run 2 1 3)\n(run 3 1 6)\n(move 1 2 2)\n(move 1 3 4)\n(claim 8 5 5)\n\n",
    )?;
    show(
        rt,
        "13: no such processor",
        b"(board (blue 1 6) (red 1 6))\n(task 1 4 2)\n(task 2 3 5)\n(task 3 2 6)\n(file 1 2 2 1)\n(file 1 3 3 2)\n",
        b"(run 1 2 0)\n(run 2 3 3)\n(run 3 1 6)\n(move 1 2 2)\n(move 1 3 4)\n(claim 8 5 5)\n",
    )?;
    show(
        rt,
        "13 behind the claim, where 14 applies too",
        b"(board (blue 1 6) (red 1 6))\n(task 1 4 2)\n(task 2 3 5)\n(task 3 2 6)\n(file 1 2 2 1)\n(file 1 3 3 2)\n",
        b"(run 1 2 0)\n(run 2 1 3)\n(run 3 1 6)\n(move 1 2 2)\n(move 1 3 4)\n(claim 8 5 5)\n(run 1 9 0)\n",
    )?;
    show(
        rt,
        "14: a line behind the claim",
        b"(board (blue 1 6) (red 1 6))\n(task 1 4 2)\n(task 2 3 5)\n(task 3 2 6)\n(file 1 2 2 1)\n(file 1 3 3 2)\n",
        b"(run 1 2 0)\n(run 2 1 3)\n(run 3 1 6)\n(move 1 2 2)\n(move 1 3 4)\n(claim 8 5 5)\n(claim 8 5 5)\n",
    )?;
    show(
        rt,
        "14: runs out of order",
        b"(board (blue 1 6) (red 1 6))\n(task 1 4 2)\n(task 2 3 5)\n(task 3 2 6)\n(file 1 2 2 1)\n(file 1 3 3 2)\n",
        b"(run 2 1 3)\n(run 1 2 0)\n(run 3 1 6)\n(move 1 2 2)\n(move 1 3 4)\n(claim 8 5 5)\n",
    )?;
    show(
        rt,
        "14: a move of a file that does not move",
        b"(board (blue 1 6) (red 1 6))\n(task 1 4 2)\n(task 2 3 5)\n(task 3 2 6)\n(file 1 2 2 1)\n(file 1 3 3 2)\n",
        b"(run 1 1 0)\n(run 2 1 4)\n(run 3 1 7)\n(move 1 2 4)\n(claim 9 5 0)\n",
    )
}

// Faults of the schedule; where several apply, the printed order decides.
fn order_of_refusals(rt: &impl Print) -> Result<()> {
    show(
        rt,
        "15 before 16 and 17 and 18",
        b"(board (blue 1 1) (red 1 1))\n(task 1 4 2)\n(task 2 3 5)\n(task 3 2 6)\n(file 1 2 2 1)\n(file 1 3 3 2)\n",
        b"(run 1 2 0)\n(run 2 2 0)\n(run 3 1 0)\n(move 1 3 0)\n(claim 1 1 1)\n",
    )?;
    show(
        rt,
        "16 before 17 and 18",
        b"(board (blue 1 1) (red 1 1))\n(task 1 4 2)\n(task 2 3 5)\n(task 3 2 6)\n(file 1 2 2 1)\n(file 1 3 3 2)\n",
        b"(run 1 2 0)\n(run 2 2 2)\n(run 3 1 0)\n(move 1 3 0)\n(claim 1 1 1)\n",
    )?;
    show(
        rt,
        "16: the lowest reader, not the first file",
        b"(board (blue 4 9) (red 1 9))\n(task 1 1 1)\n(task 2 1 1)\n(task 3 1 1)\n(task 4 1 1)\n(file 1 4 1 1)\n(file 2 3 1 1)\n",
        b"(run 1 1 0)\n(run 2 2 0)\n(run 3 3 0)\n(run 4 4 0)\n(claim 1 2 0)\n",
    )?;
    show(
        rt,
        "17 before 18; a move fills memory before its reader starts",
        b"(board (blue 1 2) (red 1 6))\n(task 1 4 2)\n(task 2 3 5)\n(task 3 2 6)\n(file 1 2 2 1)\n(file 1 3 3 2)\n",
        b"(run 1 2 0)\n(run 2 1 3)\n(run 3 1 6)\n(move 1 2 2)\n(move 1 3 3)\n(claim 7 5 5)\n",
    )?;
    show(
        rt,
        "18: a span longer than the one claimed",
        b"(board (blue 1 9) (red 1 9))\n(task 1 1000000 1)\n",
        b"(run 1 1 999999999)\n(claim 999999999 0 0)\n",
    )?;
    show(
        rt,
        "18: the peaks exchanged",
        b"(board (blue 1 9) (red 1 9))\n(task 1 1 1)\n(task 2 1 1)\n(file 1 2 3 1)\n",
        b"(run 1 1 0)\n(run 2 1 1)\n(claim 2 0 3)\n",
    )
}

fn main(rt: HostRuntime) -> Result<()> {
    examples(&rt)?;
    unusual(&rt)?;
    text_faults(&rt)?;
    order_of_refusals(&rt)?;
    by_changes(&rt)
}
