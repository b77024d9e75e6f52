// The moves of the files that a task reads, as it is placed.
ghost use Rattle.std.specs.Prelude.{◌≡◌, ℕ, ◌-◌, ◌<◌, length};
ghost use Rattle.rules.specs.Count.{list_below};
ghost use Rattle.rules.specs.Limits.{max_tasks};
ghost use Rattle.rules.specs.Model.{file_count};
ghost use Rattle.rules.specs.Scheduling.{move_with};
ghost use Rattle.model.specs.Colours.{as_colour};
ghost use Rattle.model.specs.Layout.{entries_of, run_from, WholeSchedule};
ghost use Rattle.model.specs.Jobs.{schedule_of};
ghost use Rattle.model.specs.Jobs.{instance_in};

use links::{End, Links};
use model::job::Job;
use model::layout;
use model::trial::Trial;

// When file k moves with the trial's task placed: a crossing file at the start less its own move time, any other as before.
fn move_with(job: &Job, schedule: &layout::Schedule, trial: Trial, k: usize) -> u64
    requires { k < length job.now.files.now }
    ensures { result ≡ move_with (instance_in job.now) (schedule_of job.now schedule.now) trial.task (as_colour trial.colour) trial.start k }
{
    let cost = job.cost_for(schedule, k, trial.task, trial.colour);
    let takes = cost.move_time;
    if takes == 0 {
        return schedule.move_start(k);
    }
    trial.start.saturating_sub(takes)
}

// The move starts of all files, with the trial's task placed. The runs stay. Only files that the task reads move.
pub fn set_moves(links: &Links, schedule: &mut layout::Schedule, trial: Trial)
    requires i_lt_tasks { trial.task < length links.now.job.tasks.now }
    requires schedule_len { WholeSchedule schedule.old }
    ensures schedule_len_2 { WholeSchedule schedule.new }
    ensures by_index { (j : ℕ) → j < max_tasks → run_from (entries_of schedule.new) j ≡ run_from (entries_of schedule.old) j }
    ensures schedule_after { list_below (length links.now.job.files.now) (entries_of schedule.new).move_start ≡
        list_below (file_count (instance_in links.now.job))
        (move_with (instance_in links.now.job) (schedule_of links.now.job schedule.old) trial.task (as_colour trial.colour) trial.start) }
{
    for k in links.files(End::Reader, trial.task) {
        let t = move_with(&links.job, schedule, trial, k);
        schedule.set_move_start(k, t);
    }
}
