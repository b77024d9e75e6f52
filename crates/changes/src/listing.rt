// The changes of a memory, listed and sorted.
ghost use Rattle.std.specs.Prelude.{ℕ, ◌+◌, ◌<◌, ◌≤◌, length};
ghost use Rattle.rules.specs.Changes.{InTime, Residency};
ghost use Rattle.arrayvec.specs.ArrayVec.{array_vec_len};
ghost use Rattle.model.specs.Colours.{as_colour};
ghost use Rattle.model.specs.Jobs.{instance_in, schedule_in};
ghost use Rattle.model.specs.Layout.{last_tick};
ghost use Rattle.model.specs.Holds.{as_hold, Within};
ghost use Rattle.sorting.specs.Sorted.{capacity, unit};
ghost use Rattle.model.specs.Residencies.{Gives};
ghost use Rattle.changes.specs.Listed.{listed, Pushed, Listing};

use super::change::packed;
use arrayvec::ArrayVec;
use model::colour::Colour;
use model::residency::Hold;
use model::timetable::Timetable;
use sorting::{CAPACITY, sort};

// Changes as numbers.
pub type Changes = ArrayVec<u64, CAPACITY>;

// Appends the changes of a hold.
fn push(changes: &mut Changes, h: Hold, size: u64)
    requires { (array_vec_len changes.old + 2 ≤ capacity) × (size < unit) × Within last_tick h }
    ensures { Pushed changes.old.items (as_hold h) size changes.new.items }
{
    match h {
        Hold::Never => {}
        Hold::During(from, end) => {
            changes.push(packed(from, true, size));
            changes.push(packed(end, false, size));
        }
        Hold::Since(from) => changes.push(packed(from, true, size)),
    }
}

// Appends the changes of n holds, each answered with its amount.
fn push_all<F: Fn(usize) -> (Hold, u64)>(n: usize, residency: F, changes: &mut Changes)
    requires room { array_vec_len changes.old + (n + n) ≤ capacity }
    requires callable { (k : ℕ) → k < n → F.pre residency k }
    requires within { (k : ℕ) (r : _) → k < n → F.post residency k r → (r.1 < unit) × Within last_tick r.0 }
    ensures upper_bound { array_vec_len changes.new ≤ array_vec_len changes.old + (n + n) }
    ensures changes { (g : ℕ → Residency) → Gives (F.post residency) n g → Listing changes.old.items g n changes.new.items }
{
    for k in 0..n {
        let (hold, size) = residency(k);
        push(changes, hold, size);
    }
}

// Leaves the changes of the memory of the colour in the list, in time order, whatever it held before.
pub fn sorted_changes(t: &Timetable, colour: Colour, changes: &mut Changes)
    ensures in_time { InTime (instance_in t.now.job) (schedule_in t.now) (as_colour colour) (listed changes.new.items) }
    ensures upper_bound { array_vec_len changes.new ≤ capacity }
{
    changes.clear();
    push_all(
        t.job.files.len(),
        |k| (t.hold_of(k, colour), t.job.size(k)),
        changes,
    );
    push_all(
        t.job.tasks.len(),
        |i| (t.work_hold(i, colour), t.job.work(i)),
        changes,
    );
    sort(changes.as_mut_slice());
}
