// One round of HEFT and one of MINMIN, memory aware or plain, and the trials that it took.
use super::trial::earlier;
use super::trials::Trials;
use model::trial::Trial;

// The trials of a ready task: one on each colour.
const A_TASK: u64 = 2;

// A round's choice, if a ready task fits, and the trials that it took, a task on a colour counting one.
#[derive(Clone, Copy)]
pub struct Round {
    pub choice: Option<Trial>,
    pub trials: u64,
}

impl Trials<'_> {
    ghost use Rattle.std.specs.Prelude.{◌≡◌, ◌*◌, ◌≤◌, length};
    ghost use Rattle.rules.specs.Model.{task_count};
    ghost use Rattle.rules.specs.Scheduling.{Partial, earliest_below, first_that_fits};
    ghost use Rattle.model.specs.Jobs.{instance_in};
    ghost use Rattle.starts.specs.Memories.{as_memory};
    ghost use Rattle.selection.specs.Choices.{as_round, ChoiceBounds, OrderBounds};
    ghost use Rattle.selection.specs.Trials.{TrialsOf};

    // MINMIN's round: the earliest finish of the ready tasks, ties to the lower task, then blue.
    pub fn earliest_round(&self) -> Round
        ensures result_value { (Q : Partial) → TrialsOf Q self.now →
            as_round result ≡ earliest_below (as_memory self.now.memory) (instance_in self.now.job) Q (task_count (instance_in self.now.job)) }
        ensures choice_bounds { ChoiceBounds (length self.now.job.tasks.now) result.choice × (result.trials ≤ 2 * (length self.now.job.tasks.now)) }
    {
        let mut choice = None;
        let mut trials: u64 = 0;
        for i in 0..self.job.tasks.len() {
            if self.needs.of(i).ready {
                let found = self.both_colours(i);
                choice = earlier(&self.job, choice, found);
                trials += A_TASK;
            }
        }
        Round { choice, trials }
    }

    // HEFT's round: the first task in the order that is ready and fits in either colour.
    pub fn first_that_fits(&self, order: &[usize]) -> Round
        requires { OrderBounds (length self.now.job.tasks.now) order.now }
        ensures result_value { (Q : Partial) → TrialsOf Q self.now →
            as_round result ≡ first_that_fits (as_memory self.now.memory) (instance_in self.now.job) Q order.now }
        ensures choice_bounds { ChoiceBounds (length self.now.job.tasks.now) result.choice × (result.trials ≤ 2 * (length self.now.job.tasks.now)) }
    {
        let mut trials: u64 = 0;
        for task in order {
            if self.needs.of(*task).ready {
                let choice = self.both_colours(*task);
                trials += A_TASK;
                if choice.is_some() {
                    return Round { choice, trials };
                }
            }
        }
        Round {
            choice: None,
            trials,
        }
    }
}
