// Which tasks are ready: unplaced, with all their makers placed.
ghost use Rattle.std.specs.Prelude.{◌≡◌, ◌<◌, length};
ghost use Rattle.rules.specs.Scheduling.{ready as rules-ready};
ghost use Rattle.model.specs.Jobs.{instance_in};
ghost use Rattle.model.specs.Jobs.{schedule_of, ScheduleInBounds};

use links::{End, Links};
use model::layout;
use model::timetable::Timetable;

// Whether the task is ready: the makers of its files, along their chain, are looked at until one is not placed.
pub fn ready(links: &Links, schedule: &layout::Schedule, task: usize) -> bool
    requires schedule_in_bounds { ScheduleInBounds links.now.job schedule.now }
    requires task_lt_tasks { task < length links.now.job.tasks.now }
    ensures { result ≡ rules-ready (instance_in links.now.job) (schedule_of links.now.job schedule.now) task }
{
    let plan = Timetable {
        job: links.job,
        schedule,
    };
    if plan.is_placed(task) {
        return false;
    }
    for k in links.files(End::Reader, task) {
        if !plan.is_placed(plan.job.maker(k)) {
            return false;
        }
    }
    true
}
