// The earliest start of a task on a colour: the greatest of the starts 1 to 4; of 1 and 2, if the planner is plain.
ghost use Rattle.std.specs.Prelude.{◌≡◌, ◌≤◌, ℕ, IfSome};
ghost use Rattle.rules.specs.Model.{Instance, Schedule};
ghost use Rattle.rules.specs.Scheduling.{Partial, processor_start, earliest_start};
ghost use Rattle.model.specs.Colours.{as_colour};
ghost use Rattle.model.specs.Jobs.{partial_on};
ghost use Rattle.model.specs.Layout.{OnBoard, Processors, LastBoundsOn, last_tick, last_start};
ghost use Rattle.staircase.specs.Steps.{as_option, as_steps};
ghost use Rattle.needs.specs.Needs.{NeedBounds};
ghost use Rattle.starts.specs.Memories.{as_memory};
ghost use Rattle.starts.specs.Kept.{TicksWithin, Tried};

use super::memory::{Memory, memory_start};
use model::colour::{Colour, by_colour};
use model::finishes::AnyFinishes;
use needs::table::Need;
use rules::Board;
use staircase::Step;

// Start 1: the least last finish of the colour's processors.
pub fn processor_start(board: Board, finishes: &AnyFinishes, colour: Colour) -> u64
    requires processors { Processors board }
    requires last_bounds { LastBoundsOn board finishes.now }
    ensures value { (I : Instance) (P : Schedule) → OnBoard board I → result ≡
        processor_start I (partial_on board P finishes.now) (as_colour colour) }
    ensures upper_bound { result ≤ last_tick }
{
    let blue = board.blue.processors;
    let first = by_colour(colour, 0, blue) as usize;
    let count = by_colour(colour, blue, board.red.processors) as usize;
    (0..count)
        .map(|p| finishes.of(first + p))
        .min()
        .unwrap_or(0)
}

// The earliest start of a ready task with this need on the colour, if the colour fits; `idle` is start 1, the steps are the colour's own.
pub fn earliest_start(
    memory: Memory,
    need: &Need,
    steps: &[Step],
    idle: u64,
    colour: Colour,
) -> Option<u64>
    requires bounds { NeedBounds need.now × TicksWithin (as_steps steps.now) × (idle ≤ last_tick) }
    ensures result_value { (I : Instance) (Q : Partial) (i : ℕ) → Tried I Q need.now (as_steps steps.now) idle i colour →
        as_option result ≡ earliest_start (as_memory memory) I Q i (as_colour colour) }
    ensures result_bound { IfSome result (λ t. t ≤ last_start) }
{
    let demand = *need.demand.get(colour);
    let ready = idle.max(demand.arrival);
    let asked = memory_start(memory, steps, demand, need.room)?;
    Some(ready.max(asked))
}
