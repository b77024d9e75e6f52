// The rounds of a planner, and what is kept beside the partial schedule from one to the next.
ghost use Rattle.std.specs.Prelude.{◌≡◌, ◌*◌, ◌≤◌, length};
ghost use Rattle.rules.specs.Model.{task_count};
ghost use Rattle.rules.specs.Promises.{WellFormed, Trial as IsTrial};
ghost use Rattle.rules.specs.Scheduling.{aware, by_weight, round_of, assign, outcome};
ghost use Rattle.model.specs.Colours.{as_colour};
ghost use Rattle.model.specs.Jobs.{instance_in};
ghost use Rattle.model.specs.Layout.{Entries, unplaced, WholeSchedule, LastBoundsOn, last_start};
ghost use Rattle.model.specs.Jobs.{schedule_of, partial_of, partial_by};
ghost use Rattle.starts.specs.Kept.{Kept, StairsBounds};
ghost use Rattle.selection.specs.Choices.{as_round, ChoiceBounds, OrderBounds};
ghost use Rattle.planner.specs.Outcomes.{as_planner, as_outcome, Claims};
ghost use Rattle.planner.specs.Boards.{Suited};

use super::claim::claim_from;
use super::{Outcome, Rule, Stuck, memory_of};
use links::Links;
use model::colour::ByColour;
use model::finishes::Finishes;
use model::job::Job;
use model::layout;
use model::trial::Trial;
use needs::table::Needs;
use placement::memory::Sizes;
use placement::task::place;
use ranking::list::by_weight;
use selection::round::Round;
use selection::trials::Trials;
use staircase::Staircase;

// What is kept beside the partial schedule: the processors' last finishes, what a trial asks of the files, and both memories' staircases.
#[derive(Drop)]
pub struct State {
    pub finishes: Finishes,
    pub needs: Needs,
    pub stairs: ByColour<Staircase>,
}

// One round of the planner; `order` is HEFT's list.
fn round(rule: Rule, job: &Job, order: &[usize], state: &State) -> Round
    requires bounds { StairsBounds state.now.stairs }
    requires last_bounds { LastBoundsOn job.now.board state.now.finishes }
    requires order_bounds { OrderBounds (length job.now.tasks.now) order.now }
    requires p_value { order.now ≡ by_weight (instance_in job.now) (task_count (instance_in job.now)) }
    ensures result_value { (L : Entries) →
        Kept (instance_in job.now) (partial_by job.now L state.now.finishes) state.now.needs state.now.stairs →
        as_round result ≡ round_of (as_planner rule) (instance_in job.now) (partial_by job.now L state.now.finishes) }
    ensures choice_bounds { ChoiceBounds (length job.now.tasks.now) result.choice × (result.trials ≤ 2 * (length job.now.tasks.now)) }
{
    let trials = Trials::new(
        memory_of(rule),
        *job,
        state.finishes.as_any(),
        &state.needs,
        &state.stairs,
    );
    match rule {
        Rule::Heft(_) => trials.first_that_fits(order),
        Rule::MinMin(_) => trials.earliest_round(),
    }
}

// The trial's task placed at its earliest start, and all that is kept beside the schedule with it.
fn place_task(links: &Links, schedule: &mut layout::Schedule, state: &mut State, trial: Trial)
    requires kept { Kept (instance_in links.now.job) (partial_of links.now.job schedule.old state.old.finishes) state.old.needs state.old.stairs }
    requires start_bound { trial.start ≤ last_start }
    requires trial { IsTrial aware (instance_in links.now.job) (partial_of links.now.job schedule.old state.old.finishes)
        trial.task (as_colour trial.colour) trial.start }
    requires schedule_len { WholeSchedule schedule.old }
    ensures finishes_after { partial_of links.now.job schedule.new state.new.finishes ≡
        assign (instance_in links.now.job) (partial_of links.now.job schedule.old state.old.finishes) trial.task (as_colour trial.colour) trial.start }
    ensures kept_2 { Kept (instance_in links.now.job) (partial_of links.now.job schedule.new state.new.finishes) state.new.needs state.new.stairs }
    ensures schedule_len_2 { WholeSchedule schedule.new }
{
    let i = trial.task;
    let need = state.needs.of(i);
    let sizes = Sizes {
        room: need.room,
        kept: need.kept,
        incoming: need.demand.get(trial.colour).incoming,
    };
    place(
        links,
        schedule,
        &mut state.finishes,
        &mut state.stairs,
        trial,
        sizes,
    );
    state.needs.renew(links, schedule, i);
}

// The rounds, from an empty schedule on.
fn rounds(rule: Rule, links: &Links, order: &[usize], schedule: &mut layout::Schedule) -> Outcome
    requires well_formed { WellFormed (instance_in links.now.job) × Suited (as_planner rule) (instance_in links.now.job) }
    requires schedule_value { schedule.old ≡ unplaced }
    requires order_bounds { OrderBounds (length links.now.job.tasks.now) order.now }
    requires p_value { order.now ≡ by_weight (instance_in links.now.job) (task_count (instance_in links.now.job)) }
    ensures schedule_after { as_outcome result (schedule_of links.now.job schedule.new) ≡ outcome (as_planner rule) (instance_in links.now.job) }
    ensures claims { Claims (instance_in links.now.job) (schedule_of links.now.job schedule.new) result }
{
    let mut state = State {
        finishes: Finishes::new(),
        needs: Needs::new(),
        stairs: ByColour {
            blue: Staircase::new(links.job.board.blue.limit),
            red: Staircase::new(links.job.board.red.limit),
        },
    };
    state.needs.fill(links, schedule);
    let mut trials: u64 = 0;
    for placed in 0..links.job.tasks.len() {
        let found = round(rule, &links.job, order, &state);
        trials += found.trials;
        let choice = found.choice;
        let Some(trial) = choice else {
            let placed = placed as u64;
            return Outcome {
                trials,
                claim: Err(Stuck { placed }),
            };
        };
        place_task(links, schedule, &mut state, trial);
    }
    let blue = state.stairs.blue.steps();
    let red = state.stairs.red.steps();
    let claim = claim_from(links.job.board, state.finishes.as_any(), blue, red);
    Outcome {
        trials,
        claim: Ok(claim),
    }
}

// What is made once for a job, and then the rounds: the chains of each task's files, and HEFT's list.
pub fn start(rule: Rule, job: &Job, schedule: &mut layout::Schedule) -> Outcome
    requires well_formed { WellFormed (instance_in job.now) × Suited (as_planner rule) (instance_in job.now) }
    requires schedule_value { schedule.old ≡ unplaced }
    ensures schedule_after { as_outcome result (schedule_of job.now schedule.new) ≡ outcome (as_planner rule) (instance_in job.now) }
    ensures claims { Claims (instance_in job.now) (schedule_of job.now schedule.new) result }
{
    let links = Links::new(*job);
    let order = by_weight(&links);
    rounds(rule, &links, &order, schedule)
}
