// The sheets of data/: at most 64 tasks and 256 files may result. tasks_N_w_M has N tasks, M of them with W, and no file; files_N_w_M has N files and
// M tasks with W. The W of a task is its number; a file has the number of its maker for its size, and that of its reader for its move time.
use crate::show::numbers;
use console::{convert, read_file, strip, written_text};
use std::io::Result;
use std::rt::Files;

// A line of a text, from 1.
fn print_line(rt: &impl Print, text: &[u8], k: u64) -> Result<()> {
    rt.write_all(text::line_at(text, k))?;
    println!(rt)
}

// What was written for a sheet: that these are the sheet's own bytes, or four of its lines.
fn print_lines(rt: &impl Print, sheet: &[u8], text: &[u8], lines: [u64; 4]) -> Result<()> {
    if sheet == text {
        println!(rt; "the same bytes")?;
        return Ok(());
    }
    for k in lines {
        print_line(rt, text, k)?;
    }
    Ok(())
}

// The converter on a sheet: number, place and four lines of what was written.
fn show_converted(rt: &impl Print, name: &str, sheet: &[u8], lines: [u64; 4]) -> Result<()> {
    let mut out = io::large_buffer();
    let written = convert(sheet, &mut out);
    numbers(rt, name, written)?;
    if written.is_ok() {
        print_lines(rt, sheet, written_text(written, &out), lines)?;
    }
    Ok(())
}

// The stripper on the same sheet and an empty timetable: 41 and 42 come first, else line 1 of the timetable is missing.
fn show_stripped(rt: &impl Print, sheet: &[u8]) -> Result<()> {
    let mut out = io::large_buffer();
    let written = strip(sheet, b"", &mut out);
    numbers(rt, "an empty timetable", written)
}

// Both on the sheet of a file.
fn show(rt: &(impl Files + Print), err: &impl Print, name: &str, lines: [u64; 4]) -> Result<()> {
    let mut text = io::large_buffer();
    let Ok(n) = read_file(rt, err, b"conversion_examples", name.as_bytes(), &mut text) else {
        return Ok(());
    };
    let sheet = &text[..n];
    show_converted(rt, name, sheet, lines)?;
    show_stripped(rt, sheet)
}

// Line 1 is the board's, tasks follow, then files. Where one task has W it is the last.
fn tasks(rt: &(impl Files + Print), err: &impl Print) -> Result<()> {
    // 33 and 33 more are 66
    show(rt, err, "tasks_33_w_33.sheet", [0; 4])?;
    // 32 and 32 more are 64: the last added task, the first old one, and the first and the last of 32 added files
    show(rt, err, "tasks_32_w_32.sheet", [33, 34, 66, 97])?;
    // 64 and one more; 63 and one more: the added task, the first and the last old one, and the added file
    show(rt, err, "tasks_64_w_1.sheet", [0; 4])?;
    show(rt, err, "tasks_63_w_1.sheet", [2, 3, 65, 66])?;
    // 64 and none more
    show(rt, err, "tasks_64_w_0.sheet", [0; 4])?;
    // 66 would result, but line 35 of the sheet has a move time of 0
    show(rt, err, "tasks_33_w_33_bad.sheet", [0; 4])
}

// Where no task or one has W there are 24 tasks, or 64 in the last sheet, and it is the last that has W; else all tasks have it.
fn files(rt: &(impl Files + Print), err: &impl Print) -> Result<()> {
    // 256 and one more; 255 and one more: the first old task, the added file, the first and the last old one
    show(rt, err, "files_256_w_1.sheet", [0; 4])?;
    show(rt, err, "files_255_w_1.sheet", [3, 27, 28, 282])?;
    // 256 and none more
    show(rt, err, "files_256_w_0.sheet", [0; 4])?;
    // 225 and 32 more; 224 and 32 more, with 64 tasks: the last added file, the first old one, the last one, and no line 322
    show(rt, err, "files_225_w_32.sheet", [0; 4])?;
    show(rt, err, "files_224_w_32.sheet", [97, 98, 321, 322])?;
    // too many tasks, 66 and 65, and too many files, 289 and 257: 41
    show(rt, err, "files_256_w_33.sheet", [0; 4])?;
    show(rt, err, "files_256_w_1_tasks_64.sheet", [0; 4])
}

pub fn examples(rt: &(impl Files + Print), err: &impl Print) -> Result<()> {
    tasks(rt, err)?;
    files(rt, err)
}
