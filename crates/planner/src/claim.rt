// What a planner claims: the makespan from the last finishes, and each peak from its memory's staircase.
ghost use Rattle.std.specs.Prelude.{◌≡◌, ◌-◌, List, get_or};
ghost use Rattle.rules.specs.Count.{max_below};
ghost use Rattle.rules.specs.Model.{Instance, Schedule, processor_count};
ghost use Rattle.rules.specs.Staircase.{Step as Pair, least_free};
ghost use Rattle.rules.specs.Validity.{Complete, true_claim};
ghost use Rattle.model.specs.declared.colour.ByColour.{ByColour};
ghost use Rattle.model.specs.Claims.{as_claim};
ghost use Rattle.model.specs.Jobs.{partial_on};
ghost use Rattle.model.specs.Layout.{OnBoard, Processors};
ghost use Rattle.staircase.specs.Steps.{as_steps};
ghost use Rattle.needs.specs.declared.table.Needs.{Needs};
ghost use Rattle.starts.specs.Kept.{Kept};
ghost use Rattle.planner.specs.Outcomes.{FreeWithin, amounts};

use model::claim::Claim;
use model::finishes::AnyFinishes;
use rules::Board;
use staircase::{Step, least};

// The latest of the last finishes.
fn latest_finish(board: Board, finishes: &AnyFinishes) -> u64
    requires { Processors board }
    ensures { (I : Instance) (P : Schedule) → OnBoard board I → result ≡
        max_below (processor_count I) (λ p. get_or (partial_on board P finishes.now).last_finish p 0) }
{
    let count = (board.blue.processors + board.red.processors) as usize;
    (0..count).map(|p| finishes.of(p)).max().unwrap_or(0)
}

// The greatest amount held under a limit: what is not free where the least is.
fn peak(limit: u64, steps: &[Step]) -> u64
    requires { FreeWithin limit (as_steps steps.now) }
    ensures { result ≡ limit - least_free (as_steps steps.now) }
{
    limit - least(steps)
}

// What a complete schedule has to claim, from what is kept beside it: the last finishes and both staircases' steps, whatever their ticks.
pub fn claim_from(board: Board, finishes: &AnyFinishes, blue: &[Step], red: &[Step]) -> Claim
    requires processors { Processors board }
    requires free_within { FreeWithin board.blue.limit (as_steps blue.now) × FreeWithin board.red.limit (as_steps red.now) }
    ensures { (I : Instance) (P : Schedule) (needs : Needs) (stairs : ByColour (List Pair)) → OnBoard board I →
        amounts stairs.blue ≡ amounts (as_steps blue.now) → amounts stairs.red ≡ amounts (as_steps red.now) →
        Kept I (partial_on board P finishes.now) needs stairs → Complete I P → as_claim result ≡ true_claim I P }
{
    Claim {
        span: latest_finish(board, finishes),
        blue_peak: peak(board.blue.limit, blue),
        red_peak: peak(board.red.limit, red),
    }
}
