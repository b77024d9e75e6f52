// Reads board sheets, good and bad, and prints the number and the place of each answer.
#![tactic(auto)]

use model::layout::Numbers;
use rules::Board;
use std::io::Result;

fn put(rt: &impl Print, number: u64, place: u64) -> Result<()> {
    println!(rt; "{number} {place}")
}

fn show(rt: &impl Print, sheet: &[u8]) -> Result<()> {
    let mut numbers = Numbers::new();
    match instance::read(sheet, &mut numbers) {
        Ok(_) => put(rt, 0, 0),
        Err(refusal) => put(rt, refusal.number(), refusal.place()),
    }
}

// Sheets that are accepted: the course example; one task; sizes and limits at the ends of their ranges; run times of 0.
fn accepted(rt: &impl Print) -> Result<()> {
    show(
        rt,
        b"(board (blue 1 6) (red 1 6))\n(task 1 4 2)\n(task 2 3 5)\n(task 3 2 6)\n(file 1 2 2 1)\n(file 1 3 3 2)\n",
    )?;
    show(
        rt,
        b"(board (blue 1 0) (red 8 999999999))\n(task 1 1 1000000)\n",
    )?;
    show(
        rt,
        b"(board (blue 8 0) (red 8 0))\n(task 1 1 1)\n(task 2 1 1)\n(task 3 1 1)\n(file 1 3 0 1000000)\n(file 2 3 1000000 1)\n",
    )?;
    show(rt, b"(board (blue 1 6) (red 1 6))\n(task 1 0 2)\n")?;
    show(rt, b"(board (blue 1 6) (red 1 6))\n(task 1 4 0)\n")?;
    show(rt, b"(board (blue 1 6) (red 1 6))\n(task 1 0 0)\n")
}

// Number 1: too long, whatever the lines are. A sheet of the greatest length is read: its first line is empty.
fn too_long(rt: &impl Print) -> Result<()> {
    show(rt, &[b'\n'; Board::MAX_TEXT + 1])?;
    show(rt, &[b'\n'; Board::MAX_TEXT])
}

// Number 2: absent lines, lines without LF, and lines of no form. The sheet with ten digits was 2 until Order 5, and is 3.
fn malformed(rt: &impl Print) -> Result<()> {
    show(rt, b"")?;
    show(rt, b"(board (blue 1 6) (red 1 6))\n")?;
    show(rt, b"(board (blue 1 6) (red 1 6))")?;
    show(
        rt,
        b"(board (blue 1 6) (red 1 6))\n(task 1 4 2)\n(task 65 3 5)",
    )?;
    show(rt, b"(board (blue 1 6) (red 1 6))\r\n(task 1 4 2)\n")?;
    show(
        rt,
        b"(board (blue 1 6) (red 1 6))\n(task 1 4 2)\n(task 2 3 \xb5)\n",
    )?;
    show(rt, b"(board (blue 1 6) (red 1 6))\n(task 1 04 2)\n")?;
    show(rt, b"(board (blue 1 1000000000) (red 1 6))\n(task 1 4 2)\n")?;
    show(
        rt,
        b"(board (blue 1 6) (red 1 6))\n(task 1 4 2)\n\n(task 2 3 5)\n",
    )?;
    show(rt, b"(board (blue 1 6) (red 1 6))\n(run 1 1 0)\n")?;
    show(rt, b"(board (blue 1 6) (red 1 6))\n(task 1  4 2)\n")?;
    show(rt, b"(board (blue 1 6) (red 1 6))\n(task 1 4 2) \n")?;
    show(rt, b"(board (blue 1 6) (red 1 6))\n(task 1 00 2)\n")
}

// Number 3: a number out of its range, also in a line of the wrong kind. The two sheets with a run time of 1000001 were
// 3 until Order 5, and are accepted.
fn out_of_range(rt: &impl Print) -> Result<()> {
    show(rt, b"(board (blue 9 6) (red 1 6))\n(task 1 4 2)\n")?;
    show(rt, b"(board (blue 1 6) (red 0 6))\n(task 1 4 2)\n")?;
    show(rt, b"(board (blue 1 6) (red 1 6))\n(task 0 4 2)\n")?;
    show(rt, b"(board (blue 1 6) (red 1 6))\n(task 1 1000001 2)\n")?;
    show(
        rt,
        b"(board (blue 1 6) (red 1 6))\n(task 1 4 2)\n(file 1 65 1 1)\n",
    )?;
    show(
        rt,
        b"(board (blue 1 6) (red 1 6))\n(task 1 4 2)\n(task 2 3 5)\n(file 1 2 1000001 1)\n",
    )?;
    show(rt, b"(file 0 1 1 1)\n")?;
    show(
        rt,
        b"(board (blue 1 6) (red 1 6))\n(task 1 4 2)\n(board (blue 0 6) (red 1 6))\n",
    )?;
    show(rt, b"(board (blue 1 6) (red 1 6))\n(task 1 0 1000001)\n")
}

// Number 4: a readable line that is not allowed there; of several bad lines the first.
fn undue(rt: &impl Print) -> Result<()> {
    show(rt, b"(task 1 4 2)\n")?;
    show(
        rt,
        b"(board (blue 1 6) (red 1 6))\n(file 1 2 1 1)\n(task 1 04 2)\n",
    )?;
    show(
        rt,
        b"(board (blue 1 6) (red 1 6))\n(board (blue 1 6) (red 1 6))\n",
    )?;
    show(rt, b"(board (blue 1 6) (red 1 6))\n(task 2 4 2)\n")?;
    show(
        rt,
        b"(board (blue 1 6) (red 1 6))\n(task 1 4 2)\n(task 2 3 5)\n(file 1 2 1 1)\n(task 3 2 6)\n",
    )?;
    show(
        rt,
        b"(board (blue 1 6) (red 1 6))\n(task 1 4 2)\n(task 2 3 5)\n(task 3 2 6)\n(file 1 40 1 1)\n",
    )?;
    show(
        rt,
        b"(board (blue 1 6) (red 1 6))\n(task 1 4 2)\n(task 2 3 5)\n(file 1 2 1 1)\n(file 1 2 1 1)\n",
    )?;
    show(
        rt,
        b"(board (blue 1 6) (red 1 6))\n(task 1 4 2)\n(task 2 3 5)\n(task 3 2 6)\n(file 1 3 1 1)\n(file 1 2 1 1)\n",
    )?;
    show(
        rt,
        b"(board (blue 1 6) (red 1 6))\n(task 1 4 2)\n(task 2 3 5)\n(task 3 2 6)\n(file 2 3 1 1)\n(file 1 3 1 1)\n",
    )?;
    show(
        rt,
        b"(board (blue 1 6) (red 1 6))\n(task 1 4 2)\n(task 2 3 5)\n(file 2 2 1 1)\n",
    )?;
    show(
        rt,
        b"(board (blue 1 6) (red 1 6))\n(task 1 4 2)\n(task 2 3 5)\n(file 2 1 1 1)\n",
    )
}

fn main(rt: HostRuntime) -> Result<()> {
    accepted(&rt)?;
    too_long(&rt)?;
    malformed(&rt)?;
    out_of_range(&rt)?;
    undue(&rt)
}
