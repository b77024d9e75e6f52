// Each refusal but 41 and 42, which limits.rt has. All but the sheets at fault are the course example with W for its first and its last task.
use crate::show::{converted, numbers, stripped};
use std::io::Result;

// The converter's, of a sheet.
fn sheets(rt: &impl Print) -> Result<()> {
    let long = io::large_buffer();
    converted(rt, "1: a sheet of 65536 bytes", &long)?;
    converted(
        rt,
        "2: two spaces",
        b"(board (blue 1 6) (red 1 6))\n(task 1 4 2  1)\n",
    )?;
    converted(
        rt,
        "3: W of 0",
        b"(board (blue 1 6) (red 1 6))\n(task 1 4 2 1)\n(task 2 3 5 0)\n",
    )?;
    converted(
        rt,
        "4: task 3 where task 2 is due",
        b"(board (blue 1 6) (red 1 6))\n(task 1 4 2 1)\n(task 3 2 6 1)\n",
    )
}

// The stripper's, of a timetable's text. The timetable without a fault has eight lines and the claim; task 2, an added one, is on red.
fn texts(rt: &impl Print, sheet: &[u8]) -> Result<()> {
    let long = io::large_buffer();
    stripped(rt, "11: a timetable of 65536 bytes", sheet, &long)?;
    stripped(
        rt,
        "12: a leading zero",
        sheet,
        b"(run 1 2 0)\n(run 2 02 2)\n(run 3 2 0)\n(run 4 1 3)\n(run 5 1 6)\n(move 2 5 5)\n(move 3 4 2)\n(move 3 5 4)\n(claim 8 6 6)\n",
    )?;
    stripped(
        rt,
        "13: processor 3 of 2, an added task's",
        sheet,
        b"(run 1 2 0)\n(run 2 3 2)\n(run 3 2 0)\n(run 4 1 3)\n(run 5 1 6)\n(move 2 5 5)\n(move 3 4 2)\n(move 3 5 4)\n(claim 8 6 6)\n",
    )?;
    stripped(
        rt,
        "14: a timetable of the original, a move where task 4 is due",
        sheet,
        b"(run 1 2 0)\n(run 2 1 3)\n(run 3 1 6)\n(move 1 2 2)\n(move 1 3 4)\n(claim 8 5 6)\n",
    )?;
    stripped(
        rt,
        "14: the move of the added file left out",
        sheet,
        b"(run 1 2 0)\n(run 2 2 2)\n(run 3 2 0)\n(run 4 1 3)\n(run 5 1 6)\n(move 3 4 2)\n(move 3 5 4)\n(claim 8 6 6)\n",
    )
}

// The stripper's, of a timetable that is read. Places 15 and 16 are tasks of the converted sheet.
fn timetables(rt: &impl Print, sheet: &[u8]) -> Result<()> {
    stripped(
        rt,
        "15: the added task 2 inside task 3's run from 0 until 2",
        sheet,
        b"(run 1 2 0)\n(run 2 2 1)\n(run 3 2 0)\n(run 4 1 3)\n(run 5 1 6)\n(move 2 5 5)\n(move 3 4 2)\n(move 3 5 4)\n(claim 8 6 6)\n",
    )?;
    stripped(
        rt,
        "16: the added file arrives at 7, task 5 starts at 6",
        sheet,
        b"(run 1 2 0)\n(run 2 2 2)\n(run 3 2 0)\n(run 4 1 3)\n(run 5 1 6)\n(move 2 5 6)\n(move 3 4 2)\n(move 3 5 4)\n(claim 8 6 6)\n",
    )?;
    stripped(
        rt,
        "17: the added task 2 at 0, 7 blocks of red memory",
        sheet,
        b"(run 1 2 0)\n(run 2 2 0)\n(run 3 2 0)\n(run 4 1 3)\n(run 5 1 6)\n(move 2 5 5)\n(move 3 4 2)\n(move 3 5 4)\n(claim 8 6 7)\n",
    )?;
    stripped(
        rt,
        "18: the claim of what is left",
        sheet,
        b"(run 1 2 0)\n(run 2 2 2)\n(run 3 2 0)\n(run 4 1 3)\n(run 5 1 6)\n(move 2 5 5)\n(move 3 4 2)\n(move 3 5 4)\n(claim 8 5 6)\n",
    )
}

// The stripper's, of a sheet, whatever the timetable.
fn sheets_to_strip(rt: &impl Print) -> Result<()> {
    let long = io::large_buffer();
    stripped(rt, "1: two texts of 65536 bytes", &long, &long)?;
    stripped(
        rt,
        "3: W of 0, no timetable",
        b"(board (blue 1 6) (red 1 6))\n(task 1 4 2 1)\n(task 2 3 5 0)\n",
        b"",
    )
}

// A buffer one byte too short, whose bytes stay; and one that is just long enough. What is converted takes 154 bytes, what is left 76.
fn short(rt: &impl Print, sheet: &[u8], paper: &[u8]) -> Result<()> {
    let mut sheet_out = [b'.'; 153];
    let a = frames::convert(sheet, &mut sheet_out);
    numbers(rt, "31: 153 bytes for the sheet", a)?;
    rt.write_all(&sheet_out)?;
    println!(rt)?;
    let mut paper_out = [b'.'; 75];
    let b = frames::strip(sheet, paper, &mut paper_out);
    numbers(rt, "31: 75 bytes for the timetable", b)?;
    rt.write_all(&paper_out)?;
    println!(rt)
}

fn long_enough(rt: &impl Print, sheet: &[u8], paper: &[u8]) -> Result<()> {
    let mut sheet_out = [b'.'; 154];
    let a = frames::convert(sheet, &mut sheet_out);
    numbers(rt, "154 bytes for the sheet", a)?;
    rt.write_all(&sheet_out)?;
    let mut paper_out = [b'.'; 78];
    let b = frames::strip(sheet, paper, &mut paper_out);
    numbers(rt, "78 bytes for the timetable, of which two stay", b)?;
    rt.write_all(&paper_out)?;
    println!(rt)
}

pub fn examples(rt: &impl Print) -> Result<()> {
    let sheet =
        b"(board (blue 1 6) (red 1 6))\n(task 1 4 2 1)\n(task 2 3 5)\n(task 3 2 6 1)\n(file 1 2 2 1)\n(file 1 3 3 2)\n";
    let paper =
        b"(run 1 2 0)\n(run 2 2 2)\n(run 3 2 0)\n(run 4 1 3)\n(run 5 1 6)\n(move 2 5 5)\n(move 3 4 2)\n(move 3 5 4)\n(claim 8 6 6)\n";
    sheets(rt)?;
    sheets_to_strip(rt)?;
    texts(rt, sheet)?;
    timetables(rt, sheet)?;
    short(rt, sheet, paper)?;
    long_enough(rt, sheet, paper)
}
