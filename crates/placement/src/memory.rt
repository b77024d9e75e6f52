// Both memories' staircases, as a task is placed: what it occupies in its own, and what leaves the other.
ghost use Rattle.std.specs.Prelude.{false, ◌<◌, ◌≤◌, length};
ghost use Rattle.rules.specs.Model.{blue, red};
ghost use Rattle.rules.specs.Staircase.{change_if};
ghost use Rattle.model.specs.Layout.{last_start};
ghost use Rattle.model.specs.Jobs.{schedule_of};
ghost use Rattle.model.specs.Jobs.{instance_in};
ghost use Rattle.staircase.specs.Stairs.{Pending, Made};
ghost use Rattle.placement.specs.Memory.{SizesOf, moves_of, own_of, changes_in};

use links::{End, Links};
use model::colour::{ByColour, Colour};
use model::job::Job;
use model::layout;
use model::trial::Trial;
use staircase::Staircase;

// What a placing changes: `room` for what the task makes and its working memory, `kept` what it reads and its working memory until
// its release, `incoming` the files that cross to it.
#[derive(Clone, Copy)]
pub struct Sizes {
    pub room: u64,
    pub kept: u64,
    pub incoming: u64,
}

// A trial that is placed, and what it changes.
#[derive(Clone, Copy)]
pub struct Placing {
    pub trial: Trial,
    pub sizes: Sizes,
}

// The staircase after a change, unless it is of nothing.
fn change_if(staircase: &mut Staircase, tick: u64, amount: u64, rises: bool)
    requires { Pending (change_if tick rises amount) staircase.old }
    ensures { Made (change_if tick rises amount) staircase.old staircase.new }
{
    if 0 < amount {
        staircase.change(tick, amount, rises);
    }
}

// The staircase with file k moved in to the task, if it crosses.
fn move_in(
    job: &Job,
    schedule: &layout::Schedule,
    staircase: &mut Staircase,
    trial: Trial,
    k: usize,
)
    requires k_lt_files { k < length job.now.files.now }
    requires pending { Pending (moves_of job.now schedule.now trial k 1) staircase.old }
    ensures { Made (moves_of job.now schedule.now trial k 1) staircase.old staircase.new }
{
    let cost = job.cost_for(schedule, k, trial.task, trial.colour);
    let takes = cost.move_time;
    if 0 < takes {
        let departs = trial.start.saturating_sub(takes);
        staircase.change(departs, cost.newly_held, true);
    }
}

// The staircase with the task's crossing files moved in, each from its own move's start on.
fn move_all_in(links: &Links, schedule: &layout::Schedule, staircase: &mut Staircase, trial: Trial)
    requires i_lt_tasks { trial.task < length links.now.job.tasks.now }
    requires pending { Pending (moves_of links.now.job schedule.now trial 0 (length links.now.job.files.now)) staircase.old }
    ensures { Made (moves_of links.now.job schedule.now trial 0 (length links.now.job.files.now)) staircase.old staircase.new }
{
    for k in links.files(End::Reader, trial.task) {
        move_in(&links.job, schedule, staircase, trial, k);
    }
}

// The staircase of the task's own memory with the task placed. Its crossing files move in; what it makes and its working memory are
// there from its start on; what it reads and its working memory go at its release.
fn occupy(links: &Links, schedule: &layout::Schedule, staircase: &mut Staircase, placing: Placing)
    requires trial { (placing.trial.task < length links.now.job.tasks.now) × (placing.trial.start ≤ last_start) }
    requires sizes_of { SizesOf (instance_in links.now.job) (schedule_of links.now.job schedule.now) placing.trial placing.sizes }
    requires pending { Pending (own_of links.now.job schedule.now placing.trial) staircase.old }
    ensures { Made (own_of links.now.job schedule.now placing.trial) staircase.old staircase.new }
{
    let trial = placing.trial;
    let finish = trial.start + links.job.run_time(trial.task, trial.colour);
    let release = finish.max(trial.start + 1);
    move_all_in(links, schedule, staircase, trial);
    change_if(staircase, trial.start, placing.sizes.room, true);
    change_if(staircase, release, placing.sizes.kept, false);
}

// The staircase of the other memory with the task placed. The files that cross to the task go at its start, when their moves end.
fn vacate(staircase: &mut Staircase, start: u64, incoming: u64)
    requires { Pending (change_if start false incoming) staircase.old }
    ensures { Made (change_if start false incoming) staircase.old staircase.new }
{
    change_if(staircase, start, incoming, false);
}

// Both memories' staircases with the task placed. The arms name which memory is occupied and which is left: both are lent to be changed.
pub fn both_memories(
    links: &Links,
    schedule: &layout::Schedule,
    stairs: &mut ByColour<Staircase>,
    placing: Placing,
)
    requires trial { (placing.trial.task < length links.now.job.tasks.now) × (placing.trial.start ≤ last_start) }
    requires sizes_of { SizesOf (instance_in links.now.job) (schedule_of links.now.job schedule.now) placing.trial placing.sizes }
    requires pending { Pending (changes_in blue links.now.job schedule.now placing.trial) stairs.old.blue }
    requires pending_2 { Pending (changes_in red links.now.job schedule.now placing.trial) stairs.old.red }
    ensures made { Made (changes_in blue links.now.job schedule.now placing.trial) stairs.old.blue stairs.new.blue }
    ensures made_2 { Made (changes_in red links.now.job schedule.now placing.trial) stairs.old.red stairs.new.red }
{
    let incoming = placing.sizes.incoming;
    let start = placing.trial.start;
    match placing.trial.colour {
        Colour::Blue => {
            occupy(links, schedule, &mut stairs.blue, placing);
            vacate(&mut stairs.red, start, incoming);
        }
        Colour::Red => {
            occupy(links, schedule, &mut stairs.red, placing);
            vacate(&mut stairs.blue, start, incoming);
        }
    }
}
