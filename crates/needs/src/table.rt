// The needs of each task: whether it is ready, its room, what it keeps, and, once it is ready, its demand on each colour.
ghost use Rattle.std.specs.Prelude.{◌≡◌, ◌≤◌, ◌<◌, length};
ghost use Rattle.rules.specs.Count.{sum_where};
ghost use Rattle.rules.specs.Limits.{max_tasks};
ghost use Rattle.rules.specs.Model.{file_count, size_at};
ghost use Rattle.model.specs.Jobs.{instance_in};
ghost use Rattle.model.specs.Layout.{most_files, most_held};
ghost use Rattle.model.specs.Jobs.{schedule_of, ScheduleInBounds};
ghost use Rattle.links.specs.Chains.{has_at};
ghost use Rattle.needs.specs.Needs.{Admitted, NeedBounds, NeedsBounds};

use super::demand::{Demand, demand_of};
use super::readiness::ready;
use links::{End, Links};
use model::colour::{ByColour, Colour};
use model::layout;
use rules::Board;

// A task's: whether it is ready; what it makes and its working memory; all that it reads and its working memory.
#[derive(Clone, Copy)]
pub struct Need {
    pub ready: bool,
    pub room: u64,
    pub kept: u64,
    pub demand: ByColour<Demand>,
}

// The needs of all tasks.
#[derive(Drop)]
pub struct Needs {
    tasks: [Need; Board::MAX_TASKS],
    ghost whole: { length tasks ≡ max_tasks },
    ghost bounds: { NeedsBounds tasks },
}

// The sizes of the files that have the task at that end, along their chain.
fn sizes(links: &Links, end: End, task: usize) -> u64
    requires { task < length links.now.job.tasks.now }
    ensures value { result ≡ sum_where (file_count (instance_in links.now.job))
        (has_at end (instance_in links.now.job) task) (size_at (instance_in links.now.job)) }
    ensures upper_bound { result ≤ most_files }
{
    let mut sum: u64 = 0;
    for k in links.files(end, task) {
        sum += links.job.size(k);
    }
    sum
}

// The task's need, with these sizes: whether it is ready, and if it is, its demand on both colours.
fn need_of(links: &Links, schedule: &layout::Schedule, task: usize, room: u64, kept: u64) -> Need
    requires schedule_in_bounds { ScheduleInBounds links.now.job schedule.now }
    requires task_lt_tasks { task < length links.now.job.tasks.now }
    requires room_bound { (room ≤ most_held) × (kept ≤ most_held) }
    ensures admitted { Admitted (instance_in links.now.job) (schedule_of links.now.job schedule.now) task result }
    ensures sizes { (result.room ≡ room) × (result.kept ≡ kept) }
    ensures bounds { NeedBounds result }
{
    let ready = ready(links, schedule, task);
    let mut demand = ByColour {
        blue: Demand::new(),
        red: Demand::new(),
    };
    if ready {
        demand.blue = demand_of(links, schedule, task, Colour::Blue);
        demand.red = demand_of(links, schedule, task, Colour::Red);
    }
    Need {
        ready,
        room,
        kept,
        demand,
    }
}

impl Needs {
    ghost use Rattle.std.specs.Prelude.{◌≡◌, ◌<◌, true, replicate};
    ghost use Rattle.rules.specs.Limits.{max_tasks};
    ghost use Rattle.rules.specs.Model.{is_placed, run_at};
    ghost use Rattle.model.specs.Jobs.{instance_in};
    ghost use Rattle.model.specs.Jobs.{schedule_of, ScheduleInBounds};
    ghost use Rattle.needs.specs.Needs.{no_need, Admitted, NeedBounds};
    ghost use Rattle.needs.specs.Tables.{need_at, SameBut, Right, RightBut};

    // Of a job of which nothing is worked out yet.
    pub fn new() -> Self
        ensures { result.tasks ≡ replicate max_tasks no_need }
    {
        let need = Need {
            ready: false,
            room: 0,
            kept: 0,
            demand: ByColour {
                blue: Demand::new(),
                red: Demand::new(),
            },
        };
        Needs {
            tasks: [need; Board::MAX_TASKS],
        }
    }

    // Task i's.
    pub fn of(&self, i: usize) -> &Need
        requires { i < max_tasks }
        ensures value { result.now ≡ need_at self.now i }
        ensures bounds { NeedBounds result.now }
    {
        &self.tasks[i]
    }

    // Task i's anew, with the sizes that it has.
    fn admit(&mut self, links: &Links, schedule: &layout::Schedule, i: usize)
        requires schedule_in_bounds { ScheduleInBounds links.now.job schedule.now }
        requires i_lt_tasks { i < length links.now.job.tasks.now }
        ensures admitted { Admitted (instance_in links.now.job) (schedule_of links.now.job schedule.now) i (need_at self.new i) }
        ensures sizes { ((need_at self.new i).room ≡ (need_at self.old i).room) × ((need_at self.new i).kept ≡ (need_at self.old i).kept) }
        ensures same_but { SameBut i self.old self.new }
    {
        let old = self.tasks[i];
        self.tasks[i] = need_of(links, schedule, i, old.room, old.kept);
    }

    // All of them, for the schedule.
    pub fn fill(&mut self, links: &Links, schedule: &layout::Schedule)
        requires { ScheduleInBounds links.now.job schedule.now }
        ensures { Right (instance_in links.now.job) (schedule_of links.now.job schedule.now) self.new }
    {
        for i in 0..links.job.tasks.len() {
            let work = links.job.work(i);
            let room = sizes(links, End::Maker, i) + work;
            let kept = sizes(links, End::Reader, i) + work;
            self.tasks[i] = need_of(links, schedule, i, room, kept);
        }
    }

    // After task i was placed: it is no longer ready, and the readers of what it makes may be.
    pub fn renew(&mut self, links: &Links, schedule: &layout::Schedule, i: usize)
        requires schedule_in_bounds { ScheduleInBounds links.now.job schedule.now }
        requires right_but { RightBut (instance_in links.now.job) (schedule_of links.now.job schedule.now) i self.old }
        requires i_lt_tasks { (i < length links.now.job.tasks.now) × (is_placed (run_at (schedule_of links.now.job schedule.now) i) ≡ true) }
        ensures { Right (instance_in links.now.job) (schedule_of links.now.job schedule.now) self.new }
    {
        self.tasks[i].ready = false;
        for k in links.files(End::Maker, i) {
            let reader = links.job.reader(k);
            self.admit(links, schedule, reader);
        }
    }
}
