// The fault of a tick: 15 at the later start of two runs that overlap, 16 at an early move or an early start, 17 over a limit, by the files and
// the working memory (Order 6) that are held.
ghost use Rattle.std.specs.Prelude.{◌≡◌, ◌<◌, length};
ghost use Rattle.rules.specs.Validity.{overlap, over};
ghost use Rattle.rules.specs.Simulation.{shares_at, file_early, early_at, fault_at};
ghost use Rattle.model.specs.Jobs.{instance_in, schedule_in};
ghost use Rattle.simulator.specs.Answers.{number_at};
ghost use Rattle.simulator.specs.Faults.{begun_overlaps, overlaps_begun, starts_overlapping, early_move, early_by};

use super::answer::TickFault;
use model::residency::FileTimes;
use model::timetable::Timetable;
use runs::overlapping_runs;
use validator::exclusion::run_of;
use validator::timing::{moves_early, starts_early};

// Whether two tasks are two, and their runs are on one processor and share an instant.
fn overlapping_tasks(t: &Timetable, i: usize, j: usize) -> bool
    requires { (i < length t.now.job.tasks.now) × (j < length t.now.job.tasks.now) }
    ensures { result ≡ overlap (instance_in t.now.job) (schedule_in t.now) i j }
{
    if i == j {
        return false;
    }
    let one = run_of(t, i);
    let other = run_of(t, j);
    overlapping_runs(one, other)
}

// Whether task j's run starts by the tick and overlaps task i's.
fn begun_overlaps(t: &Timetable, tick: u64, i: usize, j: usize) -> bool
    requires { (i < length t.now.job.tasks.now) × (j < length t.now.job.tasks.now) }
    ensures { result ≡ begun_overlaps (instance_in t.now.job) (schedule_in t.now) tick i j }
{
    t.start(j) <= tick && overlapping_tasks(t, i, j)
}

// Whether task i's run overlaps one that starts by the tick.
fn overlaps_begun(t: &Timetable, tick: u64, i: usize) -> bool
    requires { i < length t.now.job.tasks.now }
    ensures { result ≡ overlaps_begun (instance_in t.now.job) (schedule_in t.now) tick i }
{
    (0..t.job.tasks.len()).any(|j| begun_overlaps(t, tick, i, j))
}

// Whether task i's run starts at the tick and overlaps one that starts by then: most runs start at another tick, and cost no look at the others.
fn starts_overlapping(t: &Timetable, tick: u64, i: usize) -> bool
    requires { i < length t.now.job.tasks.now }
    ensures { result ≡ starts_overlapping (instance_in t.now.job) (schedule_in t.now) tick i }
{
    t.start(i) == tick && overlaps_begun(t, tick, i)
}

// 15: whether two runs on one processor share an instant, and the tick is the later of their starts.
fn shares_at(t: &Timetable, tick: u64) -> bool
    ensures { result ≡ shares_at (instance_in t.now.job) (schedule_in t.now) tick }
{
    (0..t.job.tasks.len()).any(|i| starts_overlapping(t, tick, i))
}

// Whether the tick is the start of a move of a file that is not made by then.
fn moves_early_at(times: FileTimes, tick: u64) -> bool
    ensures { result ≡ early_move times tick }
{
    moves_early(times)
        && times
            .transfer
            .is_some_and(|transfer| transfer.departs == tick)
}

// Whether the tick is an early move of a file with these times, or the start of its reader before it has arrived.
fn early_by(times: FileTimes, tick: u64) -> bool
    ensures { result ≡ early_by times tick }
{
    moves_early_at(times, tick) || starts_early(times) && times.starts == tick
}

// Whether the tick is an early move or an early start of file k.
fn file_early(t: &Timetable, tick: u64, k: usize) -> bool
    requires { k < length t.now.job.files.now }
    ensures { result ≡ file_early (instance_in t.now.job) (schedule_in t.now) tick k }
{
    early_by(t.file_times(k), tick)
}

// 16: whether the tick is an early move or an early start.
fn early_at(t: &Timetable, tick: u64) -> bool
    ensures { result ≡ early_at (instance_in t.now.job) (schedule_in t.now) tick }
{
    (0..t.job.files.len()).any(|k| file_early(t, tick, k))
}

// Whether a memory is over its limit at the tick: what is held then is counted, by the definition.
fn over_at(t: &Timetable, tick: u64) -> bool
    ensures { result ≡ over (instance_in t.now.job) (schedule_in t.now) tick }
{
    let board = t.job.board;
    let held = t.totals_at(tick);
    board.blue.limit < held.blue || board.red.limit < held.red
}

// The fault of the tick: 15, 16 or 17 in this order, if it has one.
#[tactic(auto, unfolding(rules::specs::Simulation::fault_at))]
pub fn fault_at(t: &Timetable, tick: u64) -> Option<TickFault>
    ensures { number_at result ≡ fault_at (instance_in t.now.job) (schedule_in t.now) tick }
{
    if shares_at(t, tick) {
        Some(TickFault::Overlap)
    } else if early_at(t, tick) {
        Some(TickFault::Early)
    } else if over_at(t, tick) {
        Some(TickFault::OverLimit)
    } else {
        None
    }
}
