// The planners: rounds, each of which places one task, until all are placed or none fits.
#![tactic(auto)]

ghost use Rattle.std.specs.Prelude.{◌≡◌};
ghost use Rattle.rules.specs.Limits.{memory_limits};
ghost use Rattle.rules.specs.Promises.{WellFormed};
ghost use Rattle.rules.specs.Scheduling.{memory_of, outcome};
ghost use Rattle.model.specs.Jobs.{instance_in};
ghost use Rattle.model.specs.Layout.{unplaced};
ghost use Rattle.model.specs.Jobs.{schedule_of};
ghost use Rattle.starts.specs.Memories.{as_memory};
ghost use Rattle.planner.specs.Outcomes.{as_planner, as_outcome, Claims};
ghost use Rattle.planner.specs.Boards.{board_by};

use model::claim::Claim;
use model::job::Job;
use model::layout::Schedule;
use rounds::start;
use rules::{Board, Side};
use starts::memory::Memory;

pub mod claim;
pub mod rounds;

// HEFT and MINMIN: memory aware, or plain. Which one it is says which call makes a round, and no more: a match of two arms.
#[derive(Clone, Copy)]
pub enum Rule {
    Heft(Memory),
    MinMin(Memory),
}

// What is left of a planner's rounds: the trials made, and the claim of the complete schedule, or how many tasks were placed when it was stuck.
#[derive(Clone, Copy)]
pub struct Outcome {
    pub trials: u64,
    pub claim: Result<Claim, Stuck>,
}

// No ready task fits, with so many placed.
#[derive(Clone, Copy)]
pub struct Stuck {
    pub placed: u64,
}

// The side with the greatest limit, which holds all that any job has.
fn loosened(side: Side) -> Side
    ensures { result ≡ record { processors = side.processors; limit = memory_limits.most } }
{
    Side {
        processors: side.processors,
        limit: Board::MAX_LIMIT,
    }
}

// Whether the planner looks at memory.
fn memory_of(rule: Rule) -> Memory
    ensures { as_memory result ≡ memory_of (as_planner rule) }
{
    match rule {
        Rule::Heft(memory) | Rule::MinMin(memory) => memory,
    }
}

// The board that a planner's staircases go by: a plain planner does not look at the limits.
fn board_by(memory: Memory, board: Board) -> Board
    ensures { result ≡ board_by (as_memory memory) board }
{
    match memory {
        Memory::Aware => board,
        Memory::Plain => Board {
            blue: loosened(board.blue),
            red: loosened(board.red),
        },
    }
}

// The planner on a job: the rounds, from an empty schedule on.
pub fn run(rule: Rule, job: &Job, schedule: &mut Schedule) -> Outcome
    requires well_formed { WellFormed (instance_in job.now) }
    requires schedule_value { schedule.old ≡ unplaced }
    ensures schedule_after { as_outcome result (schedule_of job.now schedule.new) ≡ outcome (as_planner rule) (instance_in job.now) }
    ensures claims { Claims (instance_in job.now) (schedule_of job.now schedule.new) result }
{
    let own = Job {
        board: board_by(memory_of(rule), job.board),
        tasks: job.tasks,
        files: job.files,
    };
    start(rule, &own, schedule)
}
