// A timetable: a job and a schedule for it, every number in its range. The schedule may be partial.
ghost use Rattle.std.specs.Prelude.{length};
ghost use Rattle.model.specs.Layout.{ScheduleBounds, entries_of};

use super::colour::Colour;
use super::job::Job;
use super::layout::Schedule;

// A job and the numbers of a schedule for it, both lent.
#[derive(Clone, Copy)]
pub struct Timetable<'a> {
    pub job: Job<'a>,
    pub schedule: &'a Schedule,
    ghost in_bounds: { ScheduleBounds (length job.tasks.now) (length job.files.now) (entries_of schedule.now) },
}

impl Timetable<'_> {
    ghost use Rattle.std.specs.Prelude.{◌≡◌, ◌<◌, ◌≤◌, length};
    ghost use Rattle.rules.specs.Limits.{ticks};
    ghost use Rattle.rules.specs.Model.{run_at, start_at, move_at, is_placed, colour_of};
    ghost use Rattle.model.specs.Colours.{as_colour};
    ghost use Rattle.model.specs.Jobs.{instance_in, schedule_in};

    // The processor of task i, counted from 1 over both colours; 0 if the task is not placed.
    pub fn processor(&self, i: usize) -> u64
        requires { i < length self.now.job.tasks.now }
        ensures { result ≡ (run_at (schedule_in self.now) i).processor }
    {
        self.schedule.processor(i)
    }

    // Whether task i is placed.
    pub fn is_placed(&self, i: usize) -> bool
        requires { i < length self.now.job.tasks.now }
        ensures { result ≡ is_placed (run_at (schedule_in self.now) i) }
    {
        0 < self.processor(i)
    }

    // The start of task i.
    pub fn start(&self, i: usize) -> u64
        requires { i < length self.now.job.tasks.now }
        ensures value { result ≡ start_at (schedule_in self.now) i }
        ensures upper_bound { result ≤ ticks.most }
    {
        self.schedule.start(i)
    }

    // The move start of file k.
    pub fn move_start(&self, k: usize) -> u64
        requires { k < length self.now.job.files.now }
        ensures value { result ≡ move_at (schedule_in self.now) k }
        ensures upper_bound { result ≤ ticks.most }
    {
        self.schedule.move_start(k)
    }

    // The colour that task i runs on.
    pub fn colour_of(&self, i: usize) -> Colour
        requires { i < length self.now.job.tasks.now }
        ensures { as_colour result ≡ colour_of (instance_in self.now.job) (run_at (schedule_in self.now) i) }
    {
        self.job.colour_of(self.schedule, i)
    }
}
