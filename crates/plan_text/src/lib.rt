// A job planned, and its timetable written into a lent buffer.
#![tactic(auto)]

ghost use Rattle.std.specs.Prelude.{◌≡◌, ℕ, [], ◌∷◌};
ghost use Rattle.rules.specs.Calls.{plan_text, written, plan_on};
ghost use Rattle.rules.specs.Promises.{WellFormed};
ghost use Rattle.rules.specs.Validity.{true_claim};
ghost use Rattle.model.specs.Claims.{as_claim};
ghost use Rattle.model.specs.Jobs.{instance_in};
ghost use Rattle.model.specs.Jobs.{schedule_of};
ghost use Rattle.planner.specs.Outcomes.{as_planner};
ghost use Rattle.plan_text.specs.Answers.{number_of, place_of, answer_of, as_answer};

use model::claim::Claim;
use model::job::Job;
use model::layout;
use planner::Rule;
use rules::Refusal;

// A planner's answer: the bytes that its timetable takes, or why there is none; and the trials made.
#[derive(Clone, Copy)]
pub struct Answer {
    pub written: Result<usize, Refusal>,
    pub trials: u64,
}

// Document 01's number and place of a call that writes: 0 and the bytes written, or the refusal's.
pub fn numbers_of(written: Result<usize, Refusal>) -> [u64; 2]
    ensures { result ≡ number_of written ∷ place_of written ∷ [] }
{
    match written {
        Ok(size) => [0, size as u64],
        Err(refusal) => [refusal.number(), refusal.place()],
    }
}

// Writes a schedule with its true claim, if the buffer is long enough, and answers how many bytes that takes.
pub fn write_plan(
    job: &Job,
    schedule: &layout::Schedule,
    claim: Claim,
    out: &mut [u8],
) -> Result<usize, Refusal>
    requires { as_claim claim ≡ true_claim (instance_in job.now) (schedule_of job.now schedule.now) }
    ensures { (trials : ℕ) → answer_of result trials out.new ≡
        written (plan_text (instance_in job.now) (schedule_of job.now schedule.now)) out.old trials }
{
    let size = schedule::schedule_size(job, schedule, claim);
    if out.len() < size {
        return Err(Refusal::Short(size as u64));
    }
    Ok(schedule::write(job, schedule, claim, out))
}

// The planner on the job of an accepted board sheet.
pub fn plan_instance(rule: Rule, job: &Job, out: &mut [u8]) -> Answer
    requires { WellFormed (instance_in job.now) }
    ensures { as_answer result out.new ≡ plan_on (as_planner rule) (instance_in job.now) out.old }
{
    let mut schedule = layout::Schedule::new();
    let outcome = planner::run(rule, job, &mut schedule);
    let trials = outcome.trials;
    match outcome.claim {
        Ok(claim) => Answer {
            written: write_plan(job, &schedule, claim, out),
            trials,
        },
        Err(stuck) => Answer {
            written: Err(Refusal::Stuck(stuck.placed)),
            trials,
        },
    }
}
