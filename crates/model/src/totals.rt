// How much the memories hold: the sums of the holds of residency.rt.
ghost use Rattle.std.specs.Prelude.{ℕ, ◌≡◌, ◌*◌, ◌<◌, ◌≤◌, cond};
ghost use Rattle.rules.specs.Changes.{Residency};
ghost use Rattle.rules.specs.Count.{sum_where};
ghost use Rattle.rules.specs.Limits.{file_sizes, max_files};
ghost use Rattle.rules.specs.Residency.{covers as rules-covers};
ghost use Rattle.model.specs.declared.colour.Colour.TheVariants.{Blue, Red};
ghost use Rattle.model.specs.Holds.{as_hold};
ghost use Rattle.model.specs.Residencies.{GivesIn};

use super::colour::{ByColour, Colour};
use super::residency::Hold;
use super::timetable::Timetable;

// The amount, if its hold covers tick t; else 0.
fn covered(hold: Hold, amount: u64, t: u64) -> u64
    ensures value { result ≡ cond (rules-covers (as_hold hold) t) amount 0 }
    ensures upper_bound { result ≤ amount }
{
    if hold.covers(t) { amount } else { 0 }
}

// The amounts of those of n holds in each memory that cover tick t, both holds answered with their amount.
fn held_of<F: Fn(usize) -> (ByColour<Hold>, u64)>(n: usize, residency: F, t: u64) -> ByColour<u64>
    requires few { n ≤ max_files }
    requires callable { (k : ℕ) → k < n → F.pre residency k }
    requires small { (k : ℕ) (r : _) → k < n → F.post residency k r → r.1 ≤ file_sizes.most }
    ensures blue { (g : ℕ → Residency) → GivesIn Blue (F.post residency) n g →
        result.blue ≡ sum_where n (λ k. rules-covers (g k).hold t) (λ k. (g k).size) }
    ensures red { (g : ℕ → Residency) → GivesIn Red (F.post residency) n g →
        result.red ≡ sum_where n (λ k. rules-covers (g k).hold t) (λ k. (g k).size) }
    ensures upper_bound { (result.blue ≤ file_sizes.most * n) × (result.red ≤ file_sizes.most * n) }
{
    let mut blue = 0;
    let mut red = 0;
    for k in 0..n {
        let (holds, amount) = residency(k);
        blue += covered(holds.blue, amount, t);
        red += covered(holds.red, amount, t);
    }
    ByColour { blue, red }
}

impl Timetable<'_> {
    ghost use Rattle.std.specs.Prelude.{◌≡◌, ◌<◌, ◌≤◌, length};
    ghost use Rattle.rules.specs.Model.{blue, red};
    ghost use Rattle.rules.specs.Residency.{held, hold_of, work_of};
    ghost use Rattle.model.specs.Colours.{as_colour};
    ghost use Rattle.model.specs.Holds.{as_hold};
    ghost use Rattle.model.specs.Layout.{most_held};
    ghost use Rattle.model.specs.Jobs.{instance_in, schedule_in};

    // The holds of file k in both memories, by its times, which are worked out once.
    fn holds_of(&self, k: usize) -> ByColour<Hold>
        requires { k < length self.now.job.files.now }
        ensures in_blue { as_hold result.blue ≡ hold_of (instance_in self.now.job) (schedule_in self.now) blue k }
        ensures in_red { as_hold result.red ≡ hold_of (instance_in self.now.job) (schedule_in self.now) red k }
    {
        let times = self.file_times(k);
        ByColour {
            blue: self.hold_by(k, times, Colour::Blue),
            red: self.hold_by(k, times, Colour::Red),
        }
    }

    // Those of task i's working memory.
    fn work_holds(&self, i: usize) -> ByColour<Hold>
        requires { i < length self.now.job.tasks.now }
        ensures in_blue { as_hold result.blue ≡ work_of (instance_in self.now.job) (schedule_in self.now) blue i }
        ensures in_red { as_hold result.red ≡ work_of (instance_in self.now.job) (schedule_in self.now) red i }
    {
        ByColour {
            blue: self.work_hold(i, Colour::Blue),
            red: self.work_hold(i, Colour::Red),
        }
    }

    // The totals held in both memories at tick t, in one pass over files and tasks.
    pub fn totals_at(&self, t: u64) -> ByColour<u64>
        ensures in_blue { result.blue ≡ held (instance_in self.now.job) (schedule_in self.now) blue t }
        ensures in_red { result.red ≡ held (instance_in self.now.job) (schedule_in self.now) red t }
        ensures upper_bound { (result.blue ≤ most_held) × (result.red ≤ most_held) }
    {
        let files = held_of(
            self.job.files.len(),
            |k| (self.holds_of(k), self.job.size(k)),
            t,
        );
        let work = held_of(
            self.job.tasks.len(),
            |i| (self.work_holds(i), self.job.work(i)),
            t,
        );
        ByColour {
            blue: files.blue + work.blue,
            red: files.red + work.red,
        }
    }

    // The total held in the memory of the colour at tick t.
    pub fn held_at(&self, colour: Colour, t: u64) -> u64
        ensures value { result ≡ held (instance_in self.now.job) (schedule_in self.now) (as_colour colour) t }
        ensures upper_bound { result ≤ most_held }
    {
        *self.totals_at(t).get(colour)
    }
}
