// One task placed.
ghost use Rattle.std.specs.Prelude.{◌≡◌, ◌<◌, ◌≤◌, length};
ghost use Rattle.rules.specs.Model.{blue, red};
ghost use Rattle.rules.specs.Promises.{WellFormed, Trial as IsTrial};
ghost use Rattle.rules.specs.Scheduling.{aware, processor_start, assign as rules-assign};
ghost use Rattle.rules.specs.Staircase.{Placed};
ghost use Rattle.model.specs.Colours.{as_colour};
ghost use Rattle.model.specs.Layout.{WholeSchedule, last_start};
ghost use Rattle.model.specs.Jobs.{schedule_of, partial_of};
ghost use Rattle.model.specs.Jobs.{instance_in};
ghost use Rattle.staircase.specs.Stairs.{HoldsStairs};
ghost use Rattle.placement.specs.Memory.{SizesOf};
ghost use Rattle.placement.specs.Slots.{with_finish};

use super::memory::{Placing, Sizes, both_memories};
use super::moves::set_moves;
use super::processor::{chosen_processor, slot_in};
use links::Links;
use model::colour::ByColour;
use model::finishes::{AnyFinishes, Finishes};
use model::layout;
use model::trial::Trial;
use staircase::Staircase;

// The trial's task in the timetable: the moves, the run and the last finish of its processor.
fn assign(links: &Links, schedule: &mut layout::Schedule, finishes: &mut AnyFinishes, trial: Trial)
    requires schedule_len { WholeSchedule schedule.old }
    requires i_lt_tasks { (trial.task < length links.now.job.tasks.now) × (trial.start ≤ last_start) }
    requires colour_bound { processor_start (instance_in links.now.job) (partial_of links.now.job schedule.old finishes.old) (as_colour trial.colour)
        ≤ trial.start }
    ensures schedule_len_2 { WholeSchedule schedule.new }
    ensures finishes_after { partial_of links.now.job schedule.new finishes.new ≡
        rules-assign (instance_in links.now.job) (partial_of links.now.job schedule.old finishes.old)
        trial.task (as_colour trial.colour) trial.start }
    ensures finishes_value { finishes.new ≡ with_finish (instance_in links.now.job) (partial_of links.now.job schedule.old finishes.old)
        trial.task (as_colour trial.colour) trial.start finishes.old }
{
    set_moves(links, schedule, trial);
    let p = chosen_processor(links.job.board, finishes, trial.colour, trial.start).unwrap();
    let slot = slot_in(links.job.board, trial.colour, p);
    schedule.set_run(trial.task, slot as u64 + 1, trial.start);
    let finish = trial.start + links.job.run_time(trial.task, trial.colour);
    finishes.set(slot, finish);
}

// The trial's task placed: in both memories' staircases, and in the timetable. Before and after it each memory's list of pairs equals
// what the hold rule gives for the partial timetable. Any last finishes serve.
pub fn place_any(
    links: &Links,
    schedule: &mut layout::Schedule,
    finishes: &mut AnyFinishes,
    stairs: &mut ByColour<Staircase>,
    trial: Trial,
    sizes: Sizes,
)
    requires well_formed { WellFormed (instance_in links.now.job) }
    requires schedule_len { WholeSchedule schedule.old }
    requires placed { Placed (instance_in links.now.job) (partial_of links.now.job schedule.old finishes.old) }
    requires trial { IsTrial aware (instance_in links.now.job) (partial_of links.now.job schedule.old finishes.old)
        trial.task (as_colour trial.colour) trial.start × (trial.start ≤ last_start) }
    requires sizes_of { SizesOf (instance_in links.now.job) (schedule_of links.now.job schedule.old) trial sizes }
    requires holds_stairs { HoldsStairs (instance_in links.now.job) (schedule_of links.now.job schedule.old) blue stairs.old.blue }
    requires holds_stairs_2 { HoldsStairs (instance_in links.now.job) (schedule_of links.now.job schedule.old) red stairs.old.red }
    ensures schedule_len_2 { WholeSchedule schedule.new }
    ensures finishes_after { partial_of links.now.job schedule.new finishes.new ≡
        rules-assign (instance_in links.now.job) (partial_of links.now.job schedule.old finishes.old)
        trial.task (as_colour trial.colour) trial.start }
    ensures finishes_value { finishes.new ≡ with_finish (instance_in links.now.job) (partial_of links.now.job schedule.old finishes.old)
        trial.task (as_colour trial.colour) trial.start finishes.old }
    ensures holds_stairs_3 { HoldsStairs (instance_in links.now.job)
        (rules-assign (instance_in links.now.job) (partial_of links.now.job schedule.old finishes.old)
        trial.task (as_colour trial.colour) trial.start).schedule blue stairs.new.blue }
    ensures holds_stairs_4 { HoldsStairs (instance_in links.now.job)
        (rules-assign (instance_in links.now.job) (partial_of links.now.job schedule.old finishes.old)
        trial.task (as_colour trial.colour) trial.start).schedule red stairs.new.red }
{
    both_memories(links, schedule, stairs, Placing { trial, sizes });
    assign(links, schedule, finishes, trial);
}

// The same with a planner's last finishes, which stay in their bound.
pub fn place(
    links: &Links,
    schedule: &mut layout::Schedule,
    finishes: &mut Finishes,
    stairs: &mut ByColour<Staircase>,
    trial: Trial,
    sizes: Sizes,
)
    requires well_formed { WellFormed (instance_in links.now.job) }
    requires schedule_len { WholeSchedule schedule.old }
    requires placed { Placed (instance_in links.now.job) (partial_of links.now.job schedule.old finishes.old) }
    requires trial { IsTrial aware (instance_in links.now.job) (partial_of links.now.job schedule.old finishes.old)
        trial.task (as_colour trial.colour) trial.start × (trial.start ≤ last_start) }
    requires sizes_of { SizesOf (instance_in links.now.job) (schedule_of links.now.job schedule.old) trial sizes }
    requires holds_stairs { HoldsStairs (instance_in links.now.job) (schedule_of links.now.job schedule.old) blue stairs.old.blue }
    requires holds_stairs_2 { HoldsStairs (instance_in links.now.job) (schedule_of links.now.job schedule.old) red stairs.old.red }
    ensures schedule_len_2 { WholeSchedule schedule.new }
    ensures finishes_after { partial_of links.now.job schedule.new finishes.new ≡
        rules-assign (instance_in links.now.job) (partial_of links.now.job schedule.old finishes.old)
        trial.task (as_colour trial.colour) trial.start }
    ensures finishes_value { finishes.new ≡ with_finish (instance_in links.now.job) (partial_of links.now.job schedule.old finishes.old)
        trial.task (as_colour trial.colour) trial.start finishes.old }
    ensures holds_stairs_3 { HoldsStairs (instance_in links.now.job)
        (rules-assign (instance_in links.now.job) (partial_of links.now.job schedule.old finishes.old)
        trial.task (as_colour trial.colour) trial.start).schedule blue stairs.new.blue }
    ensures holds_stairs_4 { HoldsStairs (instance_in links.now.job)
        (rules-assign (instance_in links.now.job) (partial_of links.now.job schedule.old finishes.old)
        trial.task (as_colour trial.colour) trial.start).schedule red stairs.new.red }
{
    place_any(links, schedule, &mut finishes.any, stairs, trial, sizes);
}
