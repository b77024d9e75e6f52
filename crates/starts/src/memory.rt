// Starts 3 and 4, read from the memory's staircase; whether a planner asks for them.
ghost use Rattle.std.specs.Prelude.{◌≡◌, ℕ, ◌+◌, ◌≤◌, IfSome};
ghost use Rattle.rules.specs.Limits.{max_files, move_times};
ghost use Rattle.rules.specs.Model.{Colour as RulesColour, Instance, work_at};
ghost use Rattle.rules.specs.Promises.{WellFormed};
ghost use Rattle.rules.specs.Scheduling.{Partial, latest as rules-latest, delayed, output_size, memory_start};
ghost use Rattle.rules.specs.Staircase.{Placed};
ghost use Rattle.model.specs.Layout.{last_tick, last_start, most_held};
ghost use Rattle.staircase.specs.Steps.{as_option, as_steps};
ghost use Rattle.staircase.specs.Stairs.{HoldsStairs};
ghost use Rattle.needs.specs.Demands.{DemandOf, DemandBounds};
ghost use Rattle.starts.specs.Memories.{as_memory};
ghost use Rattle.starts.specs.Kept.{TicksWithin};

use needs::demand::Demand;
use staircase::{Step, both_from};

// Memory aware, or plain: with starts 3 and 4 left out. It is asked twice, here and for the planner's own board, by a match of two arms.
#[derive(Clone, Copy)]
pub enum Memory {
    Aware,
    Plain,
}

// The greater of start 3 (`running`) and start 4, which is `delay` after `moving`.
fn latest(running: Option<u64>, moving: Option<u64>, delay: u64) -> Option<u64>
    requires running_bound { IfSome running (λ t. t ≤ last_tick) }
    requires moving_bound { IfSome moving (λ t. t ≤ last_tick) }
    requires delay_bound { delay ≤ move_times.most }
    ensures result_value { as_option result ≡ rules-latest (as_option running) (delayed (as_option moving) delay) }
    ensures result_bound { IfSome result (λ t. t ≤ last_start) }
{
    let third = running?;
    let fourth = moving? + delay;
    Some(third.max(fourth))
}

// Starts 3 and 4 of a task with this demand; `room` is what it makes and its working memory, which start 3 alone asks for. The greater of
// the two, if the planner looks at memory; else 0. Nothing else asks for them.
pub fn memory_start(memory: Memory, steps: &[Step], demand: Demand, room: u64) -> Option<u64>
    requires ticks_within { TicksWithin (as_steps steps.now) }
    requires demand_bounds { DemandBounds max_files demand × (room ≤ most_held) }
    ensures result_value { (I : Instance) (Q : Partial) (i : ℕ) (c : RulesColour) → WellFormed I → Placed I Q →
        HoldsStairs I Q.schedule c (as_steps steps.now) → DemandOf I Q.schedule i c demand →
        room ≡ output_size I i + work_at I i → as_option result ≡ memory_start (as_memory memory) I Q.schedule i c }
    ensures result_bound { IfSome result (λ t. t ≤ last_start) }
{
    match memory {
        Memory::Aware => {
            let need = demand.incoming + room;
            let found = both_from(steps, need, demand.incoming);
            latest(found.third, found.fourth, demand.longest)
        }
        Memory::Plain => Some(0),
    }
}
