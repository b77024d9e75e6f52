// A timetable simulated on an instance: read, and walked through if it can be.
#![tactic(auto)]

ghost use Rattle.std.specs.Prelude.{◌≡◌, ◌+◌, min};
ghost use Rattle.rules.specs.Limits.{max_steps};
ghost use Rattle.rules.specs.Promises.{WellFormed};
ghost use Rattle.rules.specs.Simulation.{simulate_on};
ghost use Rattle.model.specs.Jobs.{instance_in};
ghost use Rattle.simulator.specs.Answers.{as_answer};

use model::job::Job;
use model::layout::Schedule;
use model::timetable::Timetable;
use rules::{Board, Refusal};
use simulator::answer::Simulation;
use simulator::walk::watch;

// The steps wanted in all: those already made and those to make, each at most as many as one call makes. So many steps made are past
// every stop and end, so that more of them say no more, and any two numbers can be named.
fn wanted_steps(made: u64, steps: u64) -> u64
    ensures { result ≡ min made max_steps + min steps max_steps }
{
    made.min(Board::MAX_STEPS) + steps.min(Board::MAX_STEPS)
}

// Simulates a timetable on the instance of an accepted board sheet.
pub fn simulate_paper(job: &Job, paper: &[u8], made: u64, steps: u64) -> Result<Simulation, Refusal>
    requires { WellFormed (instance_in job.now) }
    ensures { as_answer result ≡ simulate_on (instance_in job.now) paper.now made steps }
{
    let mut schedule = Schedule::new();
    let _claim = schedule::read(job, paper, &mut schedule)?;
    let timetable = Timetable {
        job: *job,
        schedule: &schedule,
    };
    Ok(watch(&timetable, wanted_steps(made, steps)))
}
