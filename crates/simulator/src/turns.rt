// The ticks at which a run, a move or a hold starts or ends, here a turn: the next one from a tick on. A hold is that of a file or, by Order 6,
// that of a task's working memory.
ghost use Rattle.std.specs.Prelude.{ℕ, ◌||◌, eqb, ◌<◌, ◌≤◌, length};
ghost use Rattle.rules.specs.Count.{any_below};
ghost use Rattle.rules.specs.Model.{Instance, Schedule, task_count, file_count};
ghost use Rattle.rules.specs.Simulation.{turns, run_turns, task_turns, move_turns, file_turns, is_turn};
ghost use Rattle.model.specs.Holds.{TransferOf, TransferWithin, as_hold, Within};
ghost use Rattle.model.specs.Jobs.{instance_in, schedule_in};
ghost use Rattle.model.specs.Layout.{last_tick};
ghost use Rattle.simulator.specs.Turns.{Soonest};

use model::colour::Colour;
use model::residency::{Hold, Transfer};
use model::tick::sooner;
use model::timetable::Timetable;

// The tick, if it is not before `from`.
fn next_of_tick(from: u64, tick: u64) -> Option<u64>
    requires { tick ≤ last_tick }
    ensures { Soonest (λ u. eqb tick u) from result }
{
    if from <= tick { Some(tick) } else { None }
}

// The sooner of two ticks that are not before `from`.
fn next_of_two(from: u64, a: u64, b: u64) -> Option<u64>
    requires { (a ≤ last_tick) × (b ≤ last_tick) }
    ensures { Soonest (λ u. eqb a u || eqb b u) from result }
{
    sooner(next_of_tick(from, a), next_of_tick(from, b))
}

// The next start or end of a hold. One that would end before it starts, or there, has neither.
fn next_of_hold(from: u64, h: Hold) -> Option<u64>
    requires { Within last_tick h }
    ensures { Soonest (turns (as_hold h)) from result }
{
    match h {
        Hold::During(a, b) if a < b => next_of_two(from, a, b),
        Hold::Since(a) => next_of_tick(from, a),
        Hold::Never | Hold::During(_, _) => None,
    }
}

// The next start or end of either of two holds.
fn next_of_holds(from: u64, blue: Hold, red: Hold) -> Option<u64>
    requires { Within last_tick blue × Within last_tick red }
    ensures { Soonest (λ u. turns (as_hold blue) u || turns (as_hold red) u) from result }
{
    sooner(next_of_hold(from, blue), next_of_hold(from, red))
}

// The next start or end of task i's run.
fn next_of_run(t: &Timetable, i: usize, from: u64) -> Option<u64>
    requires { i < length t.now.job.tasks.now }
    ensures { Soonest (λ u. run_turns (instance_in t.now.job) (schedule_in t.now) u i) from result }
{
    next_of_two(from, t.start(i), t.finish(i))
}

// The next start or end of task i's run or of the hold of its working memory.
fn next_of_task(t: &Timetable, i: usize, from: u64) -> Option<u64>
    requires { i < length t.now.job.tasks.now }
    ensures { Soonest (λ u. task_turns (instance_in t.now.job) (schedule_in t.now) u i) from result }
{
    let running = next_of_run(t, i, from);
    let blue = t.work_hold(i, Colour::Blue);
    let red = t.work_hold(i, Colour::Red);
    let working = next_of_holds(from, blue, red);
    sooner(running, working)
}

// The next start or end of a file's move, if it moves.
fn next_of_move(transfer: Option<Transfer>, from: u64) -> Option<u64>
    requires { TransferWithin last_tick transfer }
    ensures { (I : Instance) (P : Schedule) (k : ℕ) → TransferOf I P k transfer → Soonest (λ u. move_turns I P u k) from result }
{
    let transfer = transfer?;
    next_of_two(from, transfer.departs, transfer.arrives)
}

// The next start or end of file k's move or of one of its holds, all by its times, which are worked out once: most of a walk's time is spent here.
// One function for this and `next_of_task` would take the two holds and the first turn, and be as long as either.
fn next_of_file(t: &Timetable, k: usize, from: u64) -> Option<u64>
    requires { k < length t.now.job.files.now }
    ensures { Soonest (λ u. file_turns (instance_in t.now.job) (schedule_in t.now) u k) from result }
{
    let times = t.file_times(k);
    let moving = next_of_move(times.transfer, from);
    let blue = t.hold_by(k, times, Colour::Blue);
    let red = t.hold_by(k, times, Colour::Red);
    let held = next_of_holds(from, blue, red);
    sooner(moving, held)
}

// The next of all tasks.
fn next_of_tasks(t: &Timetable, from: u64) -> Option<u64>
    ensures { Soonest
        (λ u. any_below (task_count (instance_in t.now.job)) (task_turns (instance_in t.now.job) (schedule_in t.now) u)) from result }
{
    (0..t.job.tasks.len()).fold(None, |first, i| sooner(first, next_of_task(t, i, from)))
}

// The next of all files.
fn next_of_files(t: &Timetable, from: u64) -> Option<u64>
    ensures { Soonest
        (λ u. any_below (file_count (instance_in t.now.job)) (file_turns (instance_in t.now.job) (schedule_in t.now) u)) from result }
{
    (0..t.job.files.len()).fold(None, |first, k| sooner(first, next_of_file(t, k, from)))
}

// The next turn from a tick on, if there is one.
pub fn next_turn(t: &Timetable, from: u64) -> Option<u64>
    ensures { Soonest (is_turn (instance_in t.now.job) (schedule_in t.now)) from result }
{
    sooner(next_of_tasks(t, from), next_of_files(t, from))
}
