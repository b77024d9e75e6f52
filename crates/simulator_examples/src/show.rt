// A call of the simulator, and its answer in plain forms.
use crate::state::{print_held, print_running};
use console::print_verdict;
use frames::{Progress, Simulation};
use model::layout::Numbers;
use rules::Refusal;
use std::io::Result;

// The number of processors of a board, and of files of its sheet.
#[derive(Clone, Copy)]
pub struct Counts {
    pub processors: u64,
    pub files: usize,
}

// Those of a sheet; 0 of a sheet that is refused.
fn counts_of(sheet: &[u8]) -> Counts {
    let mut numbers = Numbers::new();
    match instance::job_of(sheet, &mut numbers) {
        Err(_) => Counts {
            processors: 0,
            files: 0,
        },
        Ok(job) => Counts {
            processors: job.board.blue.processors + job.board.red.processors,
            files: job.files.len(),
        },
    }
}

// A space and a form: a name and a number.
fn print_form(rt: &impl Print, name: &str, n: u64) -> Result<()> {
    print!(rt; " ({name} {n})")
}

// The same with two numbers.
fn print_pair(rt: &impl Print, name: &str, m: u64, n: u64) -> Result<()> {
    print!(rt; " ({name} {m} {n})")
}

// How a walk ends: with steps left, a stop by number and tick, or the end with the span.
fn print_progress(rt: &impl Print, progress: Progress) -> Result<()> {
    match progress {
        Progress::StepsLeft => print!(rt; " (steps left)"),
        Progress::Stopped { fault, tick } => print_pair(rt, "stopped", fault.number(), tick),
        Progress::Ended { span } => print_form(rt, "ended", span),
    }
}

// The whole answer, on a sheet of these counts. A refusal is told by number and place, and leaves the state before the first step.
fn print_simulation(
    rt: &impl Print,
    answer: std::result::Result<Simulation, Refusal>,
    counts: Counts,
) -> Result<()> {
    let a = match answer {
        Ok(a) => {
            print_progress(rt, a.progress)?;
            a
        }
        Err(refusal) => {
            print_pair(rt, "refused", refusal.number(), refusal.place())?;
            Simulation::before_first(Progress::StepsLeft)
        }
    };
    let running = a.running;
    let contents = a.contents;
    print_form(rt, "made", a.made)?;
    print_form(rt, "time", a.time)?;
    print_running(rt, running, counts.processors)?;
    print_held(rt, contents, counts.files)
}

// What is shown; on the next line the call, and its answer.
fn print_call(
    rt: &impl Print,
    what: &str,
    sheet: &[u8],
    paper: &[u8],
    made: u64,
    steps: u64,
) -> Result<()> {
    println!(rt; "{what}")?;
    print!(rt; " ")?;
    print_pair(rt, "simulate", made, steps)?;
    print_simulation(
        rt,
        frames::simulate(sheet, paper, made, steps),
        counts_of(sheet),
    )
}

// An example, with the steps already made and those to make.
pub fn show(
    rt: &impl Print,
    what: &str,
    sheet: &[u8],
    paper: &[u8],
    made: u64,
    steps: u64,
) -> Result<()> {
    print_call(rt, what, sheet, paper, made, steps)?;
    println!(rt)
}

// The same with the marker's answer beside it.
pub fn show_marked(
    rt: &impl Print,
    what: &str,
    sheet: &[u8],
    paper: &[u8],
    made: u64,
    steps: u64,
) -> Result<()> {
    print_call(rt, what, sheet, paper, made, steps)?;
    print!(rt; ", the marker: ")?;
    print_verdict(rt, frames::mark(sheet, paper))
}
