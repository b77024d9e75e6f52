// Planners on converted sheets: each plan is marked on the converted sheet, stripped, and what is left is marked for the original.
use crate::show::stripped;
use console::{
    Planner, convert, plan, print_text, print_text_mark, show_numbers, show_plan, written_text,
};
use std::io::Result;

// One planner on a converted sheet, and what is left of its timetable for the original; nothing where there is no timetable.
fn show_planner(rt: &impl Print, planner: Planner, sheet: &[u8], wide: &[u8]) -> Result<()> {
    let mut out = io::large_buffer();
    let answer = plan(planner, wide, &mut out);
    show_numbers(rt, "converted", planner, answer)?;
    print_text(rt, answer.written, &out)?;
    print_text_mark(rt, wide, answer.written, &out)?;
    if answer.written.is_ok() {
        stripped(rt, "stripped", sheet, written_text(answer.written, &out))?;
    }
    Ok(())
}

// A planner on a sheet, then all four on the converted one.
fn show(rt: &impl Print, what: &str, planner: Planner, sheet: &[u8]) -> Result<()> {
    show_plan(rt, what, planner, sheet)?;
    let mut out = io::large_buffer();
    let written = convert(sheet, &mut out);
    let wide = written_text(written, &out);
    show_planner(rt, Planner::MemHeft, sheet, wide)?;
    show_planner(rt, Planner::MemMinMin, sheet, wide)?;
    show_planner(rt, Planner::Heft, sheet, wide)?;
    show_planner(rt, Planner::MinMin, sheet, wide)
}

pub fn examples(rt: &impl Print) -> Result<()> {
    // The added tasks 1 and 2 go to blue, where they finish as early as on red; so a file moves before task 3, the old task 1, starts on red at 1, and the
    // span is 9, while it is 8 on the sheet itself. Blue holds the file of task 2 from 0 on, so its peak is 6; when stripped it is 5.
    show(
        rt,
        "the course example, W for its first and its last task",
        Planner::MemHeft,
        b"(board (blue 1 6) (red 1 6))\n(task 1 4 2 1)\n(task 2 3 5)\n(task 3 2 6 1)\n(file 1 2 2 1)\n(file 1 3 3 2)\n",
    )?;
    // MemMinMin places both added tasks first, since they finish at 0; their files fill blue memory and it is stuck, as it is not on the sheet itself.
    // MemHEFT places the added task 2 behind task 3. HEFT puts it on red, which has no memory, and MINMIN both on blue, 9 blocks: over a limit at 0.
    show(
        rt,
        "W of 3 and 3, a file of 3, 6 blocks",
        Planner::MemMinMin,
        b"(board (blue 1 6) (red 1 0))\n(task 1 2 2 3)\n(task 2 2 2 3)\n(file 1 2 3 1)\n",
    )
}
