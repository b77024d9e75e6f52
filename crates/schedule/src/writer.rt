// Writes a timetable, each line behind the lines already laid down, or counts its bytes.
ghost use Rattle.std.specs.Prelude.{◌≡◌, ◌+◌, ◌*◌, ◌++◌, ◌≤◌, length};
ghost use Rattle.rules.specs.Limits.{max_tasks, max_files};
ghost use Rattle.rules.specs.Text.{lf};
ghost use Rattle.rules.specs.ScheduleText.{run_line, move_line, claim_line, schedule_bytes, run_lines, move_lines, schedule_text};
ghost use Rattle.text.specs.Wrote.{Wrote};
ghost use Rattle.model.specs.Jobs.{schedule_of};
ghost use Rattle.model.specs.Jobs.{instance_in};
ghost use Rattle.model.specs.Claims.{as_claim};
ghost use Rattle.schedule.specs.Sizes.{longest};

use crate::lines::{CLAIM_FORM, MOVE_FORM, RUN_FORM};
use model::claim::Claim;
use model::job::Job;
use model::layout;
use model::layout::Schedule;
use text::{Count, Page, Sink};

// A run's line.
fn put_run<S: Sink>(sink: &mut S, i: u64, processor: u64, start: u64)
    requires { S.room sink.old (schedule_bytes (run_line i (record { processor = processor; start = start })) ++ lf) }
    ensures laid { S.laid sink.old (schedule_bytes (run_line i (record { processor = processor; start = start })) ++ lf) sink.new }
    ensures upper_bound { length (schedule_bytes (run_line i (record { processor = processor; start = start })) ++ lf) ≤ longest }
{
    sink.line(&RUN_FORM, &[i, processor, start]);
}

// A move's line.
fn put_move<S: Sink>(sink: &mut S, i: u64, j: u64, start: u64)
    requires { S.room sink.old (schedule_bytes (move_line i j start) ++ lf) }
    ensures laid { S.laid sink.old (schedule_bytes (move_line i j start) ++ lf) sink.new }
    ensures upper_bound { length (schedule_bytes (move_line i j start) ++ lf) ≤ longest }
{
    sink.line(&MOVE_FORM, &[i, j, start]);
}

// The claim's line.
fn put_claim<S: Sink>(sink: &mut S, span: u64, blue: u64, red: u64)
    requires { S.room sink.old (schedule_bytes (claim_line (record { span = span; blue_peak = blue; red_peak = red })) ++ lf) }
    ensures laid { S.laid sink.old (schedule_bytes (claim_line (record { span = span; blue_peak = blue; red_peak = red })) ++ lf) sink.new }
    ensures upper_bound { length (schedule_bytes (claim_line (record { span = span; blue_peak = blue; red_peak = red })) ++ lf) ≤ longest }
{
    sink.line(&CLAIM_FORM, &[span, blue, red]);
}

// The runs, a line for each task.
fn put_runs<S: Sink>(sink: &mut S, job: &Job<'_>, schedule: &Schedule)
    requires { S.room sink.old (run_lines (schedule_of job.now schedule.now) (length job.now.tasks.now)) }
    ensures laid { S.laid sink.old (run_lines (schedule_of job.now schedule.now) (length job.now.tasks.now)) sink.new }
    ensures upper_bound { length (run_lines (schedule_of job.now schedule.now) (length job.now.tasks.now)) ≤ longest * max_tasks }
{
    for i in 0..job.tasks.len() {
        let processor = schedule.processor(i);
        let start = schedule.start(i);
        put_run(sink, i as u64 + 1, processor, start);
    }
}

// The moves, a line for each file whose tasks run in memories of different colour.
fn put_moves<S: Sink>(sink: &mut S, job: &Job<'_>, schedule: &Schedule)
    requires { S.room sink.old (move_lines (instance_in job.now) (schedule_of job.now schedule.now) (length job.now.files.now)) }
    ensures laid { S.laid sink.old (move_lines (instance_in job.now) (schedule_of job.now schedule.now) (length job.now.files.now)) sink.new }
    ensures upper_bound { length (move_lines (instance_in job.now) (schedule_of job.now schedule.now) (length job.now.files.now)) ≤ longest * max_files }
{
    for k in 0..job.files.len() {
        if job.moves(schedule, k) {
            let maker = job.maker(k) as u64;
            let reader = job.reader(k) as u64;
            let start = schedule.move_start(k);
            put_move(sink, maker + 1, reader + 1, start);
        }
    }
}

// The whole timetable.
fn put_schedule<S: Sink>(sink: &mut S, job: &Job<'_>, schedule: &Schedule, claim: Claim)
    requires { S.room sink.old (schedule_text (instance_in job.now) (schedule_of job.now schedule.now) (as_claim claim)) }
    ensures laid { S.laid sink.old (schedule_text (instance_in job.now) (schedule_of job.now schedule.now) (as_claim claim)) sink.new }
    ensures upper_bound { length (schedule_text (instance_in job.now) (schedule_of job.now schedule.now) (as_claim claim))
        ≤ longest * (max_tasks + max_files + 1) }
{
    put_runs(sink, job, schedule);
    put_moves(sink, job, schedule);
    put_claim(sink, claim.span, claim.blue_peak, claim.red_peak);
}

// How many bytes a timetable takes.
pub fn schedule_size(job: &Job<'_>, schedule: &Schedule, claim: Claim) -> usize
    ensures { result ≡ length (schedule_text (instance_in job.now) (schedule_of job.now schedule.now) (as_claim claim)) }
{
    let mut count = Count { bytes: 0 };
    put_schedule(&mut count, job, schedule, claim);
    count.bytes
}

// Writes a timetable at the front of `out`, and returns how many bytes that takes.
pub fn write(job: &Job<'_>, schedule: &Schedule, claim: Claim, out: &mut [u8]) -> usize
    requires { length (schedule_text (instance_in job.now) (schedule_of job.now schedule.now) (as_claim claim)) ≤ length out.old }
    ensures { Wrote (schedule_text (instance_in job.now) (schedule_of job.now schedule.now) (as_claim claim))
        result out.old out.new }
{
    let mut page = Page { out, at: 0 };
    put_schedule(&mut page, job, schedule, claim);
    page.at
}
