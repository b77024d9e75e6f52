// Reads a timetable: its due lines, one after the other.
ghost use Rattle.std.specs.Prelude.{◌≡◌, ◌+◌, ◌≤◌, IfOk, length};
ghost use Rattle.rules.specs.Limits.{max_tasks, max_files};
ghost use Rattle.rules.specs.Model.{Schedule as Timetable, task_count, file_count};
ghost use Rattle.rules.specs.Text.{lines_of};
ghost use Rattle.rules.specs.ScheduleText.{schedule_line, run_of, move_of, claim_of, read as read_as, read_claim, read_moves, read_runs, read_schedule};
ghost use Rattle.text.specs.Due.{TakesDue};
ghost use Rattle.model.specs.Claims.{as_claim};
ghost use Rattle.model.specs.Jobs.{instance_in};
ghost use Rattle.model.specs.Layout.{entries_of};
ghost use Rattle.model.specs.Jobs.{schedule_of, ScheduleInBounds, AllPlaced};
ghost use Rattle.schedule.specs.Reading.{as_run, GoesOn, IsRead, nothing, runs_of};

use crate::lines::{Line, next_line};
use model::claim::Claim;
use model::job::Job;
use model::layout;
use model::layout::{Run, Schedule};
use rules::{Board, Fault, Refusal};
use text::Taken;

// Where reading goes on: the text that is left, and the number of its first line.
#[derive(Clone, Copy)]
struct Place<'a> {
    rest: &'a [u8],
    line: u64,
}

// The run of a task, counted from 1, is due.
fn due_run<'a>(job: &Job<'_>, paper: &'a [u8], task: u64) -> Result<Taken<'a, Run>, Fault>
    ensures { TakesDue (schedule_line (instance_in job.now)) (run_of task) as_run paper.now result }
{
    let next = next_line(job, paper)?;
    let said = next.value;
    let Line::Run {
        i,
        processor,
        start,
    } = said
    else {
        return Err(Fault::Undue);
    };
    if i != task {
        return Err(Fault::Undue);
    }
    let value = Run { processor, start };
    Ok(next.with(value))
}

// The move of a file from task `maker` to task `reader`, counted from 1, is due.
fn due_move<'a>(
    job: &Job<'_>,
    paper: &'a [u8],
    maker: u64,
    reader: u64,
) -> Result<Taken<'a, u64>, Fault>
    ensures { TakesDue (schedule_line (instance_in job.now)) (move_of maker reader) (λ t. t) paper.now result }
{
    let next = next_line(job, paper)?;
    let said = next.value;
    let Line::Move { i, j, start } = said else {
        return Err(Fault::Undue);
    };
    if i != maker || j != reader {
        return Err(Fault::Undue);
    }
    Ok(next.with(start))
}

// The claim is due.
fn due_claim<'a>(job: &Job<'_>, paper: &'a [u8]) -> Result<Taken<'a, Claim>, Fault>
    ensures { TakesDue (schedule_line (instance_in job.now)) claim_of as_claim paper.now result }
{
    let next = next_line(job, paper)?;
    let said = next.value;
    let Line::Claim { claim } = said else {
        return Err(Fault::Undue);
    };
    Ok(next.with(claim))
}

// Reads the runs, a line for each task, into the schedule. What is left is the text behind them.
fn read_runs<'a>(
    job: &Job<'_>,
    paper: &'a [u8],
    schedule: &mut Schedule,
) -> Result<&'a [u8], Refusal>
    ensures { let I = instance_in job.now in
        GoesOn (λ r. read_moves I (file_count I) (runs_of (length job.now.tasks.now) (entries_of schedule.new)) (length job.now.tasks.now + 1) (lines_of r.now))
        (read_runs I (task_count I) nothing 1 (lines_of paper.now)) result }
{
    let mut rest = paper;
    for i in 0..job.tasks.len() {
        let task = i as u64 + 1;
        let due = due_run(job, rest, task).map_err(|fault| Refusal::Timetable(fault, task))?;
        schedule.set_run(i, due.value.processor, due.value.start);
        rest = due.rest;
    }
    Ok(rest)
}

// Reads the moves into the schedule: a line, the first of which has the number `line`, for each file whose tasks run in memories of
// different colour. The move start of any other file is 0.
fn read_moves<'a>(
    job: &Job<'_>,
    paper: &'a [u8],
    line: u64,
    schedule: &mut Schedule,
) -> Result<Place<'a>, Refusal>
    requires { line ≤ max_tasks + 1 }
    ensures goes_on { let I = instance_in job.now in
        GoesOn (λ p. read_claim I (schedule_of job.now schedule.new) p.line (lines_of p.rest.now))
        (read_moves I (file_count I) (runs_of (length job.now.tasks.now) (entries_of schedule.old)) line (lines_of paper.now)) result }
    ensures upper_bound { IfOk result (λ p. p.line ≤ line + max_files) }
{
    let mut rest = paper;
    let mut next = line;
    for k in 0..job.files.len() {
        let moves = job.moves(schedule, k);
        if moves {
            let maker = job.maker(k) as u64 + 1;
            let reader = job.reader(k) as u64 + 1;
            let due = due_move(job, rest, maker, reader).map_err(|fault| Refusal::Timetable(
                fault, next,
            ))?;
            schedule.set_move_start(k, due.value);
            rest = due.rest;
            next += 1;
        } else {
            schedule.set_move_start(k, 0);
        }
    }
    Ok(Place { rest, line: next })
}

// Reads the claim, the line with the number `line`; nothing is due behind it.
fn read_claim(job: &Job<'_>, paper: &[u8], line: u64) -> Result<Claim, Refusal>
    requires { line ≤ max_tasks + max_files + 1 }
    ensures { (P : Timetable) → GoesOn (λ c. read_as P (as_claim c)) (read_claim (instance_in job.now) P line (lines_of paper.now)) result }
{
    let due = due_claim(job, paper).map_err(|fault| Refusal::Timetable(fault, line))?;
    if due.rest.is_empty() {
        return Ok(due.value);
    }
    let fault = next_line(job, due.rest).err().unwrap_or(Fault::Undue);
    Err(Refusal::Timetable(fault, line + 1))
}

// Reads a timetable into the schedule. One that is read has every task placed, and every number in its range.
pub fn read(job: &Job<'_>, paper: &[u8], schedule: &mut Schedule) -> Result<Claim, Refusal>
    ensures complete { IfOk result (λ _. ScheduleInBounds job.now schedule.new × AllPlaced job.now schedule.new) }
    ensures is_read { IsRead (schedule_of job.now schedule.new) result (read_schedule (instance_in job.now) paper.now) }
{
    if Board::MAX_TEXT < paper.len() {
        return Err(Refusal::Timetable(Fault::TooLong, 0));
    }
    let behind_runs = read_runs(job, paper, schedule)?;
    let behind_moves = read_moves(job, behind_runs, job.tasks.len() as u64 + 1, schedule)?;
    read_claim(job, behind_moves.rest, behind_moves.line)
}
