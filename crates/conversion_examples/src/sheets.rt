// Sheets converted: which tasks and files are added, and what becomes of the old ones.
use crate::show::{converted, numbers};
use console::{convert, written_text};
use std::io::Result;

// The converter on a sheet without W: number and place, and whether it wrote the sheet's own bytes.
fn show_same(rt: &impl Print, what: &str, sheet: &[u8]) -> Result<()> {
    let mut out = io::large_buffer();
    let written = convert(sheet, &mut out);
    numbers(rt, what, written)?;
    if written_text(written, &out) == sheet {
        println!(rt; "the same bytes")?;
    }
    Ok(())
}

// No task has W: nothing is added. The place is the length of the sheet.
fn without_work(rt: &impl Print) -> Result<()> {
    show_same(
        rt,
        "the course example, without W",
        b"(board (blue 1 6) (red 1 6))\n(task 1 4 2)\n(task 2 3 5)\n(task 3 2 6)\n(file 1 2 2 1)\n(file 1 3 3 2)\n",
    )?;
    show_same(
        rt,
        "one task",
        b"(board (blue 8 999999999) (red 8 0))\n(task 1 0 1000000000)\n",
    )
}

// The added tasks come first, in the order of those they serve, with times 0 and 0; their files come first too, of size W and move time 1.
fn with_work(rt: &impl Print) -> Result<()> {
    converted(
        rt,
        "one task, with W",
        b"(board (blue 1 5) (red 1 0))\n(task 1 4 2 5)\n",
    )?;
    // two of three: the added tasks 1 and 2 serve the old tasks 1 and 3, which are now 3 and 5
    converted(
        rt,
        "the course example, W for its first and its last task",
        b"(board (blue 1 6) (red 1 6))\n(task 1 4 2 1)\n(task 2 3 5)\n(task 3 2 6 1)\n(file 1 2 2 1)\n(file 1 3 3 2)\n",
    )?;
    // all three, a relay among them; sizes 0 and times of 1000000000 stay, and the greatest W is a file's greatest size
    converted(
        rt,
        "every task with W",
        b"(board (blue 2 9) (red 1 9))\n(task 1 4 2 3)\n(task 2 0 0 1)\n(task 3 1000000000 5 1000000)\n(file 1 2 2 1)\n(file 2 3 0 1000000000)\n",
    )
}

pub fn examples(rt: &impl Print) -> Result<()> {
    without_work(rt)?;
    with_work(rt)
}
