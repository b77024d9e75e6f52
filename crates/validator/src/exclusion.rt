// The runs of a timetable as a list of records, and the lowest task whose run overlaps another's.
ghost use Rattle.std.specs.Prelude.{◌≡◌, ◌<◌, IfSome, length};
ghost use Rattle.std.specs.Option.{unwrap_or};
ghost use Rattle.rules.specs.Count.{first_below};
ghost use Rattle.rules.specs.Model.{task_count};
ghost use Rattle.rules.specs.Validity.{overlaps};
ghost use Rattle.model.specs.Jobs.{instance_in, schedule_in};
ghost use Rattle.validator.specs.Records.{record_at, Records};

use arrayvec::ArrayVec;
use model::timetable::Timetable;
use rules::Board;
use runs::Run;

// The run of task i.
pub fn run_of(t: &Timetable, i: usize) -> Run
    requires { i < length t.now.job.tasks.now }
    ensures { result ≡ record_at (instance_in t.now.job) (schedule_in t.now) i }
{
    Run {
        processor: t.processor(i),
        start: t.start(i),
        finish: t.finish(i),
    }
}

// The runs of all tasks.
fn all_runs(t: &Timetable) -> ArrayVec<Run, { Board::MAX_TASKS }>
    ensures count { length result.items ≡ length t.now.job.tasks.now }
    ensures records { Records (instance_in t.now.job) (schedule_in t.now) (length t.now.job.tasks.now) result.items }
{
    let mut all = ArrayVec::new();
    for i in 0..t.job.tasks.len() {
        all.push(run_of(t, i));
    }
    all
}

// The lowest task that shares an instant with another run on its processor.
pub fn first_overlapping(t: &Timetable) -> Option<usize>
    ensures in_range { IfSome result (λ i. i < length t.now.job.tasks.now) }
    ensures lowest { unwrap_or result (length t.now.job.tasks.now) ≡
        first_below (task_count (instance_in t.now.job)) (overlaps (instance_in t.now.job) (schedule_in t.now)) }
{
    let all = all_runs(t);
    runs::first_overlap(all.as_slice())
}
