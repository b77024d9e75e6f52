// A timetable marked on a job: read, and judged if it can be.
#![tactic(auto)]

ghost use Rattle.std.specs.Prelude.{◌≡◌};
ghost use Rattle.rules.specs.Calls.{mark_on};
ghost use Rattle.rules.specs.Promises.{WellFormed};
ghost use Rattle.model.specs.Jobs.{instance_in};
ghost use Rattle.model.specs.Jobs.{schedule_of};
ghost use Rattle.validator.specs.Answer.{as_verdict};
ghost use Rattle.mark_text.specs.Marked.{Marked};

use model::claim::Claim;
use model::job::Job;
use model::layout;
use model::timetable::Timetable;
use rules::Refusal;
use validator::judgement::judge;

// Marks a timetable on the job of an accepted board sheet, and leaves in the schedule what was read of it.
pub fn mark_into(job: &Job, paper: &[u8], schedule: &mut layout::Schedule) -> Result<Claim, Refusal>
    requires { WellFormed (instance_in job.now) }
    ensures { Marked (instance_in job.now) paper.now (schedule_of job.now schedule.new) (as_verdict result) }
{
    let claim = schedule::read(job, paper, schedule)?;
    let timetable = Timetable {
        job: *job,
        schedule,
    };
    judge(&timetable, claim)
}

// Marks a timetable on the job of an accepted board sheet.
pub fn mark_paper(job: &Job, paper: &[u8]) -> Result<Claim, Refusal>
    requires { WellFormed (instance_in job.now) }
    ensures { as_verdict result ≡ mark_on (instance_in job.now) paper.now }
{
    let mut schedule = layout::Schedule::new();
    mark_into(job, paper, &mut schedule)
}
