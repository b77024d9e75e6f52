// The planners: a timetable made for a board sheet, and written into a lent buffer.
ghost use Rattle.std.specs.Prelude.{◌≡◌};
ghost use Rattle.rules.specs.Calls.{plan as rules-plan};
ghost use Rattle.rules.specs.Scheduling.{aware, plain, memory_of, heft};
ghost use Rattle.planner.specs.Outcomes.{as_planner as as_rule};
ghost use Rattle.plan_text.specs.Answers.{as_answer};
ghost use Rattle.frames.specs.Demands.{PlannerDemands, AwareDemands, PlainDemands, TwoTrialsATask};
ghost use Rattle.frames.specs.Planners.{as_planner};

use model::layout::Numbers;
use plan_text::{Answer, plan_instance};
use planner::Rule;
use starts::memory::Memory;

// Document 01's two planners, and their plain parents of Order 4, which do not look at the limits.
#[derive(Clone, Copy, PartialEq, Eq)]
pub enum Planner {
    MemHeft,
    MemMinMin,
    Heft,
    MinMin,
}

impl Planner {
    fn rule(self) -> Rule
        ensures { as_rule result ≡ as_planner self }
    {
        match self {
            Planner::MemHeft => Rule::Heft(Memory::Aware),
            Planner::MemMinMin => Rule::MinMin(Memory::Aware),
            Planner::Heft => Rule::Heft(Memory::Plain),
            Planner::MinMin => Rule::MinMin(Memory::Plain),
        }
    }
}

// The planner's timetable of a board sheet, written at the front of the buffer.
pub fn plan(planner: Planner, sheet: &[u8], out: &mut [u8]) -> Answer
    ensures answer { as_answer result out.new ≡ rules-plan (as_planner planner) sheet.now out.old }
    ensures planner_demands { PlannerDemands (as_planner planner) sheet.now out.old (as_answer result out.new) }
    ensures aware_demands { memory_of (as_planner planner) ≡ aware → AwareDemands (as_planner planner) sheet.now out.old (as_answer result out.new) }
    ensures plain_demands { memory_of (as_planner planner) ≡ plain → PlainDemands (as_planner planner) sheet.now out.old (as_answer result out.new) }
    ensures two_trials_a_task { as_planner planner ≡ heft plain → TwoTrialsATask sheet.now (as_answer result out.new) }
{
    let mut numbers = Numbers::new();
    match instance::job_of(sheet, &mut numbers) {
        Err(refusal) => Answer {
            written: Err(refusal),
            trials: 0,
        },
        Ok(job) => plan_instance(planner.rule(), &job, out),
    }
}
