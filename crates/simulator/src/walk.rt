// The walk from turn to turn, and the answer where it ends.
ghost use Rattle.std.specs.Prelude.{◌≡◌};
ghost use Rattle.rules.specs.Promises.{WellFormed};
ghost use Rattle.rules.specs.Simulation.{watch as rules-watch};
ghost use Rattle.model.specs.Jobs.{instance_in, schedule_in, AllPlaced};
ghost use Rattle.simulator.specs.Answers.{as_progress, as_simulation};
ghost use Rattle.simulator.specs.Walks.{Ahead, state_by};

use super::answer::{Progress, Simulation};
use super::faults::fault_at;
use super::state::{contents_at, running_at};
use super::turns::next_turn;
use model::timetable::Timetable;
use std::ops::ControlFlow;

// The tick onto which the next step goes from tick `from` on, if one more is wanted; or how the walk ends: with no turn left, with steps
// left that are not wanted, or at a faulty turn.
fn step_from(t: &Timetable, from: u64, wanted: bool) -> ControlFlow<Progress, u64>
    ensures { Ahead (instance_in t.now.job) (schedule_in t.now) from wanted result }
{
    let Some(tick) = next_turn(t, from) else {
        return ControlFlow::Break(Progress::Ended { span: t.makespan() });
    };
    if !wanted {
        return ControlFlow::Break(Progress::StepsLeft);
    }
    match fault_at(t, tick) {
        Some(fault) => ControlFlow::Break(Progress::Stopped { fault, tick }),
        None => ControlFlow::Continue(tick),
    }
}

// The answer, with the state after the steps made, the last of them onto tick `time`.
fn answer_after(t: &Timetable, progress: Progress, made: u64, time: u64) -> Simulation
    ensures { as_simulation result ≡ record {
      progress = as_progress progress;
      made = made;
      state = state_by (instance_in t.now.job) (schedule_in t.now) made time;
    } }
{
    if made == 0 {
        return Simulation::before_first(progress);
    }
    Simulation {
        progress,
        made,
        time,
        running: running_at(t, time),
        contents: contents_at(t, time),
    }
}

// The answer when so many steps are wanted in all.
pub fn watch(t: &Timetable, wanted: u64) -> Simulation
    requires placed { AllPlaced t.now.job t.now.schedule.now }
    requires well_formed { WellFormed (instance_in t.now.job) }
    ensures { as_simulation result ≡ rules-watch (instance_in t.now.job) (schedule_in t.now) wanted }
{
    let mut made = 0;
    let mut from = 0;
    let mut time = 0;
    loop {
        match step_from(t, from, made < wanted) {
            ControlFlow::Continue(tick) => {
                made += 1;
                from = tick + 1;
                time = tick;
            }
            ControlFlow::Break(progress) => return answer_after(t, progress, made, time),
        }
    }
}
