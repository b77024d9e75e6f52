// The state that a call leaves: what each processor runs, and where each file is held.
use console::print_number;
use rules::Board;
use std::io::Result;

fn print_if(rt: &impl Print, flag: bool, text: &str) -> Result<()> {
    if flag {
        return rt.print(text);
    }
    Ok(())
}

// A space and the task that a processor runs, or none. A processor that is not on the board is shown only if it runs a task.
fn print_task(rt: &impl Print, on_board: bool, task: u64) -> Result<()> {
    if task == 0 {
        return print_if(rt, on_board, " none");
    }
    print_number(rt, task)
}

// A space and where a file is held. A file that is not on the sheet is shown only if it is held.
fn print_held_in(rt: &impl Print, on_sheet: bool, held: u64) -> Result<()> {
    match held {
        0 => print_if(rt, on_sheet, " nowhere"),
        1 => print!(rt; " blue"),
        2 => print!(rt; " red"),
        3 => print!(rt; " both"),
        _ => print_number(rt, held),
    }
}

// `(running ..)`: what each of the board's processors runs. What the array has past them is shown only if it is not 0.
pub fn print_running(
    rt: &impl Print,
    running: [u64; Board::ALL_PROCESSORS],
    processors: u64,
) -> Result<()> {
    print!(rt; " (running")?;
    for p in 0..Board::ALL_PROCESSORS {
        print_task(rt, (p as u64) < processors, running[p])?;
    }
    print!(rt; ")")
}

// `(held ..)`: where each of the sheet's files is held. What the array has past them is shown only if it is not 0.
pub fn print_held(rt: &impl Print, contents: [u64; Board::MAX_FILES], files: usize) -> Result<()> {
    print!(rt; " (held")?;
    for k in 0..Board::MAX_FILES {
        print_held_in(rt, k < files, contents[k])?;
    }
    print!(rt; ")")
}
