// The finish of a trial, and the choice between two.
ghost use Rattle.std.specs.Prelude.{◌≡◌, ◌≤◌, length};
ghost use Rattle.rules.specs.Scheduling.{finish_on, earlier as rules-earlier};
ghost use Rattle.model.specs.Colours.{as_colour};
ghost use Rattle.model.specs.Jobs.{instance_in};
ghost use Rattle.model.specs.Layout.{latest_finish};
ghost use Rattle.selection.specs.Choices.{as_choice, TrialBounds, ChoiceBounds};

use model::job::Job;
use model::trial::Trial;

// The finish of a trial.
pub fn finish_of(job: &Job, trial: Trial) -> u64
    requires { TrialBounds (length job.now.tasks.now) trial }
    ensures value { result ≡ finish_on (instance_in job.now) trial.task (as_colour trial.colour) trial.start }
    ensures upper_bound { result ≤ latest_finish }
{
    trial.start + job.run_time(trial.task, trial.colour)
}

// The choice with the earlier finish, ties to the first.
pub fn earlier(job: &Job, a: Option<Trial>, b: Option<Trial>) -> Option<Trial>
    requires { ChoiceBounds (length job.now.tasks.now) a × ChoiceBounds (length job.now.tasks.now) b }
    ensures result_value { as_choice result ≡ rules-earlier (instance_in job.now) (as_choice a) (as_choice b) }
    ensures choice_bounds { ChoiceBounds (length job.now.tasks.now) result }
{
    let Some(first) = a else {
        return b;
    };
    let Some(second) = b else {
        return a;
    };
    if finish_of(job, first) <= finish_of(job, second) {
        return a;
    }
    b
}
