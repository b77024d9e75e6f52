// What a task needs on a colour: room for its crossing files, and the arrival of the files that it reads.
ghost use Rattle.std.specs.Prelude.{true, ◌≡◌, ◌+◌, ◌<◌, length};
ghost use Rattle.rules.specs.Limits.{max_files};
ghost use Rattle.rules.specs.Scheduling.{reads};
ghost use Rattle.model.specs.Colours.{as_colour};
ghost use Rattle.model.specs.Jobs.{instance_in, schedule_in};
ghost use Rattle.model.specs.Jobs.{schedule_of, ScheduleInBounds};
ghost use Rattle.needs.specs.Demands.{DemandBelow, DemandOf, DemandBounds};

use links::{End, Links};
use model::colour::Colour;
use model::layout;
use model::timetable::Timetable;

// The sizes of the crossing files; start 2, at which every file that the task reads has arrived; and the greatest move time of
// the crossing files.
#[derive(Clone, Copy)]
pub struct Demand {
    pub incoming: u64,
    pub arrival: u64,
    pub longest: u64,
}

impl Demand {
    // Of no file.
    pub fn new() -> Self
        ensures { result ≡ record { incoming = 0; arrival = 0; longest = 0 } }
    {
        Demand {
            incoming: 0,
            arrival: 0,
            longest: 0,
        }
    }
}

// The demand of the files below k, with file k, which the task reads, added to it.
fn with_file(demand: Demand, plan: &Timetable, k: usize, task: usize, colour: Colour) -> Demand
    requires k_lt_files { k < length plan.now.job.files.now }
    requires read { reads (instance_in plan.now.job) task k ≡ true }
    requires demand_below { DemandBelow (instance_in plan.now.job) (schedule_in plan.now) task (as_colour colour) k demand }
    requires demand_bounds { DemandBounds k demand }
    ensures demand_below_2 { DemandBelow (instance_in plan.now.job) (schedule_in plan.now) task (as_colour colour) (k + 1) result }
    ensures demand_bounds_2 { DemandBounds (k + 1) result }
{
    let cost = plan.job.cost_for(plan.schedule, k, task, colour);
    let time = cost.move_time;
    let enters = cost.newly_held;
    let arrives = plan.finish(plan.job.maker(k)) + time;
    let incoming = demand.incoming + enters;
    Demand {
        incoming,
        arrival: demand.arrival.max(arrives),
        longest: demand.longest.max(time),
    }
}

// The demand of the task on the colour, along the chain of the files that it reads.
pub fn demand_of(links: &Links, schedule: &layout::Schedule, task: usize, colour: Colour) -> Demand
    requires schedule_in_bounds { ScheduleInBounds links.now.job schedule.now }
    requires task_lt_tasks { task < length links.now.job.tasks.now }
    ensures demand_of { DemandOf (instance_in links.now.job) (schedule_of links.now.job schedule.now) task (as_colour colour) result }
    ensures demand_bounds { DemandBounds max_files result }
{
    let plan = Timetable {
        job: links.job,
        schedule,
    };
    let mut demand = Demand::new();
    for k in links.files(End::Reader, task) {
        demand = with_file(demand, &plan, k, task, colour);
    }
    demand
}
