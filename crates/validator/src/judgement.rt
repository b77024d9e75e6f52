// The verdict on a complete timetable: refusals 15 to 18 in their order, or acceptance.
ghost use Rattle.std.specs.Prelude.{◌≡◌};
ghost use Rattle.rules.specs.Promises.{WellFormed};
ghost use Rattle.rules.specs.Validity.{judge as rules-judge};
ghost use Rattle.model.specs.Claims.{as_claim};
ghost use Rattle.model.specs.Jobs.{instance_in, schedule_in};
ghost use Rattle.model.specs.Jobs.{AllPlaced};
ghost use Rattle.validator.specs.Answer.{as_verdict};

use super::exclusion::first_overlapping;
use super::memory::walk_memories;
use super::timing::first_early;
use model::claim::Claim;
use model::timetable::Timetable;
use rules::Refusal;

// The marker's answer on a complete timetable and its claim: the claim if it is accepted.
pub fn judge(t: &Timetable, claim: Claim) -> Result<Claim, Refusal>
    requires well_formed { WellFormed (instance_in t.now.job) }
    requires placed { AllPlaced t.now.job t.now.schedule.now }
    ensures { as_verdict result ≡ rules-judge (instance_in t.now.job) (schedule_in t.now) (as_claim claim) }
{
    if let Some(task) = first_overlapping(t) {
        return Err(Refusal::Overlap(task as u64 + 1));
    }
    if let Some(task) = first_early(t) {
        return Err(Refusal::Early(task as u64 + 1));
    }
    let found = walk_memories(t);
    if let Some(tick) = found.over {
        return Err(Refusal::OverLimit(tick));
    }
    let own = Claim {
        span: t.makespan(),
        blue_peak: found.blue_peak,
        red_peak: found.red_peak,
    };
    if claim == own {
        Ok(claim)
    } else {
        Err(Refusal::UntrueClaim)
    }
}
