// Files that move before they are made, or are read before they arrive.
ghost use Rattle.std.specs.Prelude.{◌≡◌, ◌<◌, IfSome, length};
ghost use Rattle.std.specs.Option.{unwrap_or};
ghost use Rattle.rules.specs.Count.{first_below};
ghost use Rattle.rules.specs.Model.{task_count};
ghost use Rattle.rules.specs.Validity.{early, reads_early};
ghost use Rattle.model.specs.Jobs.{instance_in, schedule_in};
ghost use Rattle.validator.specs.Early.{moves_early, starts_early, too_early};

use model::residency::FileTimes;
use model::timetable::Timetable;

// Whether a file with these times moves before it is made.
pub fn moves_early(times: FileTimes) -> bool
    ensures { result ≡ moves_early times }
{
    times
        .transfer
        .is_some_and(|transfer| transfer.departs < times.made)
}

// Whether the reader of a file with these times starts before it arrived.
pub fn starts_early(times: FileTimes) -> bool
    ensures { result ≡ starts_early times }
{
    match times.transfer {
        Some(transfer) => times.starts < transfer.arrives,
        None => times.starts < times.made,
    }
}

// Whether either is so.
fn too_early(times: FileTimes) -> bool
    ensures { result ≡ too_early times }
{
    moves_early(times) || starts_early(times)
}

// Whether file k is early.
fn early_file(t: &Timetable, k: usize) -> bool
    requires { k < length t.now.job.files.now }
    ensures { result ≡ early (instance_in t.now.job) (schedule_in t.now) k }
{
    too_early(t.file_times(k))
}

// The lowest task that reads an early file.
pub fn first_early(t: &Timetable) -> Option<usize>
    ensures in_range { IfSome result (λ i. i < length t.now.job.tasks.now) }
    ensures lowest { unwrap_or result (length t.now.job.tasks.now) ≡
        first_below (task_count (instance_in t.now.job)) (reads_early (instance_in t.now.job) (schedule_in t.now)) }
{
    // no chain: the law of std's `filter` asks what the test says of every number, and `early_file` says it of the files alone
    let mut first = None;
    for k in 0..t.job.files.len() {
        if early_file(t, k) {
            let reader = t.job.reader(k);
            first = Some(first.unwrap_or(reader).min(reader));
        }
    }
    first
}
