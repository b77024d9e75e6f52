// A job: an instance, every number in its range.
ghost use Rattle.model.specs.Layout.{JobBounds};

use super::colour::{Colour, by_colour};
use super::layout::{File, Numbers, Task};
use rules::Board;

// The board of an instance, with its tasks and its files, lent. That the instance is well formed is no field: the readers, the writers and the
// accessors take a job and ask for no more than its bounds, so the judge, the planners and the simulator ask for it in a clause.
#[derive(Clone, Copy)]
pub struct Job<'a> {
    pub board: Board,
    pub tasks: &'a [Task],
    pub files: &'a [File],
    ghost in_bounds: { JobBounds board tasks.now files.now },
}

impl Numbers {
    ghost use Rattle.std.specs.Prelude.{◌≡◌};
    ghost use Rattle.model.specs.Layout.{JobBounds, instance_with};
    ghost use Rattle.model.specs.Jobs.{instance_in};

    // The job of these numbers on a board.
    pub fn job(&self, board: Board) -> Job<'_>
        requires { JobBounds board self.now.tasks.items self.now.files.items }
        ensures { instance_in result ≡ instance_with board self.now }
    {
        Job {
            board,
            tasks: self.tasks.as_slice(),
            files: self.files.as_slice(),
        }
    }
}

impl Job<'_> {
    ghost use Rattle.std.specs.Prelude.{◌≡◌, ◌<◌, ◌≤◌, length};
    ghost use Rattle.rules.specs.Limits.{run_times, work_sizes, file_sizes, move_times};
    ghost use Rattle.rules.specs.Model.{task_at, file_at, time_on, work_at, size_at, move_time_at};
    ghost use Rattle.model.specs.Colours.{as_colour};
    ghost use Rattle.model.specs.Jobs.{instance_in};

    // The run time of task i on a processor of the colour.
    pub fn run_time(&self, i: usize, colour: Colour) -> u64
        requires { i < length self.now.tasks.now }
        ensures value { result ≡ time_on (as_colour colour) (task_at (instance_in self.now) i) }
        ensures upper_bound { result ≤ run_times.most }
    {
        let task = self.tasks[i];
        by_colour(colour, task.on_blue, task.on_red)
    }

    // The working memory of task i, 0 if it has none.
    pub fn work(&self, i: usize) -> u64
        requires { i < length self.now.tasks.now }
        ensures value { result ≡ work_at (instance_in self.now) i }
        ensures upper_bound { result ≤ work_sizes.most }
    {
        self.tasks[i].work
    }

    // The task that makes file k.
    pub fn maker(&self, k: usize) -> usize
        requires { k < length self.now.files.now }
        ensures value { result ≡ (file_at (instance_in self.now) k).maker }
        ensures upper_bound { result < length self.now.tasks.now }
    {
        self.files[k].maker as usize
    }

    // The task that reads file k.
    pub fn reader(&self, k: usize) -> usize
        requires { k < length self.now.files.now }
        ensures value { result ≡ (file_at (instance_in self.now) k).reader }
        ensures upper_bound { result < length self.now.tasks.now }
    {
        self.files[k].reader as usize
    }

    // F: the size of file k.
    pub fn size(&self, k: usize) -> u64
        requires { k < length self.now.files.now }
        ensures value { result ≡ size_at (instance_in self.now) k }
        ensures upper_bound { result ≤ file_sizes.most }
    {
        self.files[k].size
    }

    // C: the move time of file k.
    pub fn move_time(&self, k: usize) -> u64
        requires { k < length self.now.files.now }
        ensures value { result ≡ move_time_at (instance_in self.now) k }
        ensures lower_bound { move_times.least ≤ result }
        ensures upper_bound { result ≤ move_times.most }
    {
        self.files[k].move_time
    }
}
