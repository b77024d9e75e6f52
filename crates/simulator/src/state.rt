// The state of a tick: what each processor runs, and where each file is held. Working memory (Order 6) is no part of it.
ghost use Rattle.std.specs.Prelude.{◌≡◌, ◌<◌, length};
ghost use Rattle.rules.specs.Simulation.{occupies, running_on, memory_number, held_in, state_at};
ghost use Rattle.model.specs.Jobs.{instance_in, schedule_in};

use model::colour::Colour;
use model::timetable::Timetable;
use rules::Board;
use std::array;

// Whether task i occupies the processor at the tick.
fn occupies_at(t: &Timetable, tick: u64, processor: u64, i: usize) -> bool
    requires { i < length t.now.job.tasks.now }
    ensures { result ≡ occupies (instance_in t.now.job) (schedule_in t.now) processor tick i }
{
    if t.processor(i) != processor || tick < t.start(i) {
        return false;
    }
    tick < t.finish(i)
}

// The task that the processor runs at the tick, counted from 1, or 0. Where runs share an instant, the lowest.
fn running_on(t: &Timetable, tick: u64, processor: u64) -> u64
    ensures { result ≡ running_on (instance_in t.now.job) (schedule_in t.now) tick processor }
{
    (0..t.job.tasks.len())
        .find(|i| occupies_at(t, tick, processor, *i))
        .map_or(0, |i| i as u64 + 1)
}

// What each processor runs at the tick.
pub fn running_at(t: &Timetable, tick: u64) -> [u64; Board::ALL_PROCESSORS]
    ensures { result ≡ (state_at (instance_in t.now.job) (schedule_in t.now) tick).running }
{
    array::from_fn(|p| running_on(t, tick, p as u64 + 1))
}

// The number that says which memories hold a file: the C interface gives it.
fn memory_number(blue: bool, red: bool) -> u64
    ensures { result ≡ memory_number blue red }
{
    match (blue, red) {
        (false, false) => 0,
        (true, false) => 1,
        (false, true) => 2,
        (true, true) => 3,
    }
}

// Where file k is held at the tick.
fn held_in(t: &Timetable, tick: u64, k: usize) -> u64
    ensures { result ≡ held_in (instance_in t.now.job) (schedule_in t.now) tick k }
{
    if t.job.files.len() <= k {
        return 0;
    }
    let blue = t.hold_of(k, Colour::Blue).covers(tick);
    let red = t.hold_of(k, Colour::Red).covers(tick);
    memory_number(blue, red)
}

// Where each file is held at the tick.
pub fn contents_at(t: &Timetable, tick: u64) -> [u64; Board::MAX_FILES]
    ensures { result ≡ (state_at (instance_in t.now.job) (schedule_in t.now) tick).contents }
{
    array::from_fn(|k| held_in(t, tick, k))
}
