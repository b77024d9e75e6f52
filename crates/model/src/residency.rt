// When a memory holds a file, or a task's working memory: document 01's hold rule with Orders 1 and 6, for partial schedules too.
ghost use Rattle.std.specs.Prelude.{◌≡◌, ◌≤◌, ℕ};
ghost use Rattle.rules.specs.Residency.{covers as rules-covers, open_hold};
ghost use Rattle.model.specs.Holds.{as_hold, Within, closed_by, TimesWithin};

use super::colour::Colour;
use super::timetable::Timetable;

// The move of a file: its start and its end.
#[derive(Clone, Copy)]
pub struct Transfer {
    pub departs: u64,
    pub arrives: u64,
}

// The times that the two runs of a file imply: its maker's start and finish, its move if it moves, the start of its reader, and until when
// that keeps it.
#[derive(Clone, Copy)]
pub struct FileTimes {
    pub begun: u64,
    pub made: u64,
    pub transfer: Option<Transfer>,
    pub starts: u64,
    pub released: u64,
}

// When a memory holds a file, or a task's working memory.
#[derive(Clone, Copy)]
pub enum Hold {
    Never,
    During(u64, u64),
    Since(u64),
}

impl Hold {
    // Whether the hold covers tick t.
    pub fn covers(self, t: u64) -> bool
        ensures { result ≡ rules-covers (as_hold self) t }
    {
        match self {
            Hold::Never => false,
            Hold::During(from, end) => from <= t && t < end,
            Hold::Since(from) => from <= t,
        }
    }
}

// The hold of a file whose reader is not placed, in the memory of its maker's colour (`here`) or of the other.
fn open_hold(here: bool, begun: u64) -> Hold
    ensures result_value { as_hold result ≡ open_hold here begun }
    ensures within { Within begun result }
{
    if here {
        Hold::Since(begun)
    } else {
        Hold::Never
    }
}

// The hold of a file with both its tasks placed, by its times.
fn closed_hold(here: bool, times: FileTimes) -> Hold
    ensures result_value { as_hold result ≡ closed_by times here }
    ensures within { (b : ℕ) → TimesWithin b times → Within b result }
{
    match (times.transfer, here) {
        (Some(transfer), true) => Hold::During(times.begun, transfer.arrives),
        (Some(transfer), false) => Hold::During(transfer.departs, times.released),
        (None, true) => Hold::During(times.begun, times.released),
        (None, false) => Hold::Never,
    }
}

impl Timetable<'_> {
    ghost use Rattle.std.specs.Prelude.{◌≡◌, ◌<◌, ◌≤◌, ◌&&◌, length};
    ghost use Rattle.rules.specs.Model.{run_at, is_placed, same_colour, colour_of, finish_at, release_at};
    ghost use Rattle.rules.specs.Residency.{hold_of, work_of};
    ghost use Rattle.model.specs.Colours.{as_colour};
    ghost use Rattle.model.specs.Layout.{last_tick};
    ghost use Rattle.model.specs.Jobs.{instance_in, schedule_in};
    ghost use Rattle.model.specs.Holds.{TransferOf, TransferWithin, TimesOf, TimesWithin, as_hold, Within};

    // The finish of task i's run.
    pub fn finish(&self, i: usize) -> u64
        requires { i < length self.now.job.tasks.now }
        ensures value { result ≡ finish_at (instance_in self.now.job) (schedule_in self.now) i }
        ensures upper_bound { result ≤ last_tick }
    {
        self.start(i) + self.job.run_time(i, self.colour_of(i))
    }

    // Until when task i's run keeps the files that it reads and its working memory: its finish, but the tick after its start if it takes no
    // time. Marker and simulator ask here; a planner's placing works it out of its trial.
    pub fn release(&self, i: usize) -> u64
        requires { i < length self.now.job.tasks.now }
        ensures value { result ≡ release_at (instance_in self.now.job) (schedule_in self.now) i }
        ensures upper_bound { result ≤ last_tick }
    {
        self.finish(i).max(self.start(i) + 1)
    }

    // The move of file k, if it moves: from its move start, for its move time.
    fn transfer_of(&self, k: usize) -> Option<Transfer>
        requires { k < length self.now.job.files.now }
        ensures transfer_of { TransferOf (instance_in self.now.job) (schedule_in self.now) k result }
        ensures within { TransferWithin last_tick result }
    {
        if !self.job.moves(self.schedule, k) {
            return None;
        }
        let departs = self.move_start(k);
        Some(Transfer {
            departs,
            arrives: departs + self.job.move_time(k),
        })
    }

    // What the two runs of file k imply.
    pub fn file_times(&self, k: usize) -> FileTimes
        requires { k < length self.now.job.files.now }
        ensures times_of { TimesOf (instance_in self.now.job) (schedule_in self.now) k result }
        ensures times_within { TimesWithin last_tick result }
    {
        let maker = self.job.maker(k);
        let reader = self.job.reader(k);
        FileTimes {
            begun: self.start(maker),
            made: self.finish(maker),
            transfer: self.transfer_of(k),
            starts: self.start(reader),
            released: self.release(reader),
        }
    }

    // The hold of file k, of which these are the times, in the memory of the colour.
    pub fn hold_by(&self, k: usize, times: FileTimes, colour: Colour) -> Hold
        requires k_lt_files { k < length self.now.job.files.now }
        requires times_of { TimesOf (instance_in self.now.job) (schedule_in self.now) k times }
        requires times_within { TimesWithin last_tick times }
        ensures result_value { as_hold result ≡ hold_of (instance_in self.now.job) (schedule_in self.now) (as_colour colour) k }
        ensures within { Within last_tick result }
    {
        let maker = self.job.maker(k);
        if !self.is_placed(maker) {
            return Hold::Never;
        }
        let here = self.colour_of(maker) == colour;
        if self.is_placed(self.job.reader(k)) {
            return closed_hold(here, times);
        }
        open_hold(here, times.begun)
    }

    // The hold of file k in the memory of the colour.
    pub fn hold_of(&self, k: usize, colour: Colour) -> Hold
        requires { k < length self.now.job.files.now }
        ensures result_value { as_hold result ≡ hold_of (instance_in self.now.job) (schedule_in self.now) (as_colour colour) k }
        ensures within { Within last_tick result }
    {
        self.hold_by(k, self.file_times(k), colour)
    }

    // Whether task i is placed on a processor of the colour.
    fn runs_on(&self, i: usize, colour: Colour) -> bool
        requires { i < length self.now.job.tasks.now }
        ensures { let r = run_at (schedule_in self.now) i in
            result ≡ (is_placed r && same_colour (colour_of (instance_in self.now.job) r) (as_colour colour)) }
    {
        self.is_placed(i) && self.colour_of(i) == colour
    }

    // The hold of task i's working memory in the memory of the colour: the run's own, from its start until its release.
    pub fn work_hold(&self, i: usize, colour: Colour) -> Hold
        requires { i < length self.now.job.tasks.now }
        ensures result_value { as_hold result ≡ work_of (instance_in self.now.job) (schedule_in self.now) (as_colour colour) i }
        ensures within { Within last_tick result }
    {
        if self.job.work(i) == 0 || !self.runs_on(i, colour) {
            return Hold::Never;
        }
        let begun = self.start(i);
        let released = self.release(i);
        Hold::During(begun, released)
    }
}
