// The trace of a timetable: a heading, the steps, and how it ends.
ghost use Rattle.std.specs.Prelude.{◌≡◌, ◌≤◌, ltb, length};
ghost use Rattle.rules.specs.Count.{any_below};
ghost use Rattle.rules.specs.Model.{work_at};
ghost use Rattle.model.specs.Jobs.{instance_in};

use crate::line::Line;
use crate::step;
use console::print_marks;
use frames::{Progress, Simulation, TickFault};
use model::job::Job;
use model::layout::Numbers;
use std::io::Result;

// The counts of the job, and how memory and files are shown. Fails where it cannot be written.
fn print_heading(rt: &impl Print, job: &Job) -> Result<()> {
    Line::new()
        .text(b"tasks: ")
        .number(job.tasks.len() as u64)
        .text(b", files: ")
        .number(job.files.len() as u64)
        .text(b"; memory in blocks, each file as (maker reader) size")
        .end(rt)
        .ok
}

// Whether a task has working memory.
fn has_work(job: &Job) -> bool
    ensures { result ≡ any_below (length job.now.tasks.now) (λ i. ltb 0 (work_at (instance_in job.now) i)) }
{
    (0..job.tasks.len()).any(|i| 0 < job.work(i))
}

// That working memory is not shown, if a task has it. Fails where it cannot be written.
fn print_note(rt: &impl Print, job: &Job) -> Result<()> {
    if has_work(job) {
        return Line::new()
            .text(b"working memory is not shown, but it counts for the limits")
            .end(rt)
            .ok;
    }
    Ok(())
}

// Why a fault stops it.
fn reason(fault: TickFault) -> Line
    ensures { result.used ≤ 52 }
{
    let line = Line::new();
    match fault {
        TickFault::Overlap => line.text(b" by 15: two runs on one processor share an instant"),
        TickFault::Early => line.text(b" by 16: a file moves or is read before it is there"),
        TickFault::OverLimit => line.text(b" by 17: a memory would hold more than its limit"),
    }
}

// How it ends after so many steps. Fails where that cannot be written.
fn print_end(rt: &impl Print, progress: Progress, made: u64) -> Result<()> {
    let line = Line::new().end(rt);
    match progress {
        Progress::StepsLeft => line
            .text(b"steps made: ")
            .number(made)
            .text(b"; more are left")
            .end(rt)
            .ok,
        Progress::Stopped { fault, tick } => {
            let stop = line.text(b"stopped at tick ").number(tick);
            let column = stop.used;
            stop.item(rt, reason(fault), column, 2).end(rt).ok
        }
        Progress::Ended { span } => line.text(b"ended: the span is ").number(span).end(rt).ok,
    }
}

// A blank line and a step. Fails where that cannot be written.
fn print_step(rt: &impl Print, job: &Job, state: Simulation) -> Result<()> {
    step::show(rt, Line::new().end(rt), job, state).ok
}

// So many steps behind those of `first`, as far as there are any, and how it ends then. Fails where that cannot be written.
fn print_steps(
    rt: &impl Print,
    sheet: &[u8],
    paper: &[u8],
    job: &Job,
    first: Simulation,
    steps: u64,
) -> Result<()> {
    let mut made = first.made;
    let mut progress = first.progress;
    for _ in 0..steps {
        // `show` has printed a refusal before any step.
        let Ok(next) = frames::simulate(sheet, paper, made, 1) else {
            return Line::new().end(rt).ok;
        };
        progress = next.progress;
        if next.made <= made {
            return print_end(rt, progress, made);
        }
        print_step(rt, job, next)?;
        made = next.made;
    }
    print_end(rt, progress, made)
}

// The heading, and so many steps behind those of `first`. Fails where that cannot be written.
fn print_trace(
    rt: &impl Print,
    sheet: &[u8],
    paper: &[u8],
    job: &Job,
    first: Simulation,
    steps: u64,
) -> Result<()> {
    print_heading(rt, job)?;
    print_note(rt, job)?;
    print_steps(rt, sheet, paper, job, first, steps)
}

// Shows so many steps of a timetable behind those made, or the refusal of a text. Fails where that cannot be written.
pub fn show(rt: &impl Print, sheet: &[u8], paper: &[u8], made: u64, steps: u64) -> Result<()> {
    let mut numbers = Numbers::new();
    let Ok(job) = instance::job_of(sheet, &mut numbers) else {
        return print_marks(rt, sheet, paper);
    };
    let Ok(first) = frames::simulate(sheet, paper, made, 0) else {
        return print_marks(rt, sheet, paper);
    };
    print_trace(rt, sheet, paper, &job, first, steps)
}
