// What is left of a timetable of the converted sheet, written into a lent buffer.
ghost use Rattle.std.specs.Prelude.{◌≡◌};
ghost use Rattle.rules.specs.Promises.{WellFormed, Spellable};
ghost use Rattle.rules.specs.Validity.{AllOnTime, true_claim};
ghost use Rattle.rules.specs.Conversion.{stripped_text, output};
ghost use Rattle.rules.specs.ConversionPromises.{Convertible};
ghost use Rattle.rules.specs.Stripping.{strip_on};
ghost use Rattle.model.specs.Claims.{as_claim};
ghost use Rattle.model.specs.Jobs.{instance_in, schedule_in, AllPlaced};
ghost use Rattle.convert_text.specs.Answers.{as_output};
ghost use Rattle.convert_text.specs.Converts.{wide_schedule, left_in};

use crate::convert::convert_job;
use conversion::added::added;
use conversion::strip::strip;
use mark_text::mark_into;
use model::claim::Claim;
use model::job::Job;
use model::layout::{Numbers, Schedule};
use model::timetable::Timetable;
use plan_text::write_plan;
use rules::Refusal;
use validator::memory::walk_memories;

// What a timetable free of 16 has to claim: its makespan, and its peaks as the marker finds them.
fn true_claim(t: &Timetable) -> Claim
    requires well_formed { WellFormed (instance_in t.now.job) }
    requires placed { AllPlaced t.now.job t.now.schedule.now }
    requires all_on_time { AllOnTime (instance_in t.now.job) (schedule_in t.now) }
    ensures { as_claim result ≡ true_claim (instance_in t.now.job) (schedule_in t.now) }
{
    let found = walk_memories(t);
    Claim {
        span: t.makespan(),
        blue_peak: found.blue_peak,
        red_peak: found.red_peak,
    }
}

// Writes what is left of a schedule of the converted job, with its true claim, if the buffer is long enough.
fn write_left(job: &Job, schedule: &Schedule, out: &mut [u8]) -> Result<usize, Refusal>
    requires well_formed { WellFormed (instance_in job.now) }
    requires convertible { Convertible (instance_in job.now) }
    requires spellable { Spellable (instance_in job.now) (left_in (instance_in job.now) schedule.now)
        (true_claim (instance_in job.now) (left_in (instance_in job.now) schedule.now)) }
    requires all_on_time { AllOnTime (instance_in job.now) (left_in (instance_in job.now) schedule.now) }
    ensures { as_output result out.new ≡
        output (stripped_text (instance_in job.now) (wide_schedule (instance_in job.now) schedule.now)) out.old }
{
    let mut left = Schedule::new();
    strip(
        job.tasks.len(),
        job.files.len(),
        added(job.tasks),
        schedule,
        &mut left,
    );
    let timetable = Timetable {
        job: *job,
        schedule: &left,
    };
    write_plan(job, &left, true_claim(&timetable), out)
}

// The stripper on the job of an accepted board sheet, and a timetable of the converted one.
pub fn strip_paper(job: &Job, paper: &[u8], out: &mut [u8]) -> Result<usize, Refusal>
    requires { WellFormed (instance_in job.now) }
    ensures { as_output result out.new ≡ strip_on (instance_in job.now) paper.now out.old }
{
    let mut wide = Numbers::new();
    convert_job(job, &mut wide)?;
    let mut schedule = Schedule::new();
    mark_into(&wide.job(job.board), paper, &mut schedule)?;
    write_left(job, &schedule, out)
}
