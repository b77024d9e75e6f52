// Which files move, and what a file costs a task that reads it, by the colours that a schedule gives. The schedule may be partial, and its
// ticks in no range.
use super::colour::{Colour, cost_between};
use super::job::Job;
use super::layout::Schedule;

// What a file costs a task: its actual move time, and what the task's colour must newly hold of it.
#[derive(Clone, Copy)]
pub struct Cost {
    pub move_time: u64,
    pub newly_held: u64,
}

impl Job<'_> {
    ghost use Rattle.std.specs.Prelude.{◌≡◌, ◌<◌, ◌≤◌, length};
    ghost use Rattle.rules.specs.Limits.{move_times, file_sizes};
    ghost use Rattle.rules.specs.Model.{run_at, colour_of, moved, actual_move_time};
    ghost use Rattle.model.specs.Colours.{as_colour};
    ghost use Rattle.model.specs.Costs.{CostOf};
    ghost use Rattle.model.specs.Jobs.{instance_in, schedule_of};

    // The colour that task i runs on: the first processors are blue.
    pub fn colour_of(&self, schedule: &Schedule, i: usize) -> Colour
        requires { i < length self.now.tasks.now }
        ensures { as_colour result ≡ colour_of (instance_in self.now) (run_at (schedule_of self.now schedule.now) i) }
    {
        if schedule.processor(i) <= self.board.blue.processors {
            Colour::Blue
        } else {
            Colour::Red
        }
    }

    // The actual move time of file k, by the colours of its two tasks.
    pub fn actual_move_time(&self, schedule: &Schedule, k: usize) -> u64
        requires { k < length self.now.files.now }
        ensures value { result ≡ actual_move_time (instance_in self.now) (schedule_of self.now schedule.now) k }
        ensures upper_bound { result ≤ move_times.most }
    {
        cost_between(
            self.colour_of(schedule, self.maker(k)),
            self.colour_of(schedule, self.reader(k)),
            self.move_time(k),
        )
    }

    // Whether file k moves: whether its move takes time, since no move time is 0. The runs alone say so: no move start is read.
    pub fn moves(&self, schedule: &Schedule, k: usize) -> bool
        requires { k < length self.now.files.now }
        ensures { result ≡ moved (instance_in self.now) (schedule_of self.now schedule.now) k }
    {
        0 < self.actual_move_time(schedule, k)
    }

    // What file k costs the task on the colour: nothing if the task does not read it.
    pub fn cost_for(&self, schedule: &Schedule, k: usize, task: usize, colour: Colour) -> Cost
        requires { k < length self.now.files.now }
        ensures cost_of { CostOf (instance_in self.now) (schedule_of self.now schedule.now) task (as_colour colour) k result }
        ensures move_time_bound { (result.move_time ≤ move_times.most) × (result.newly_held ≤ file_sizes.most) }
    {
        if self.reader(k) != task {
            return Cost {
                move_time: 0,
                newly_held: 0,
            };
        }
        let from = self.colour_of(schedule, self.maker(k));
        Cost {
            move_time: cost_between(from, colour, self.move_time(k)),
            newly_held: cost_between(from, colour, self.size(k)),
        }
    }
}
