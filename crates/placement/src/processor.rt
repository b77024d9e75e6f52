// The processor that a task gets: of those free by its start, the first of those with the latest last finish.
ghost use Rattle.std.specs.Prelude.{◌≡◌, ◌&&◌, ◌<◌, leb, eqb, IfSome};
ghost use Rattle.std.specs.Option.{unwrap_or};
ghost use Rattle.rules.specs.Count.{max_where};
ghost use Rattle.rules.specs.Limits.{all_processors};
ghost use Rattle.rules.specs.Model.{Instance, Schedule};
ghost use Rattle.rules.specs.Scheduling.{chosen_processor};
ghost use Rattle.model.specs.Colours.{as_colour};
ghost use Rattle.model.specs.Jobs.{partial_on};
ghost use Rattle.model.specs.Layout.{OnBoard, Processors, count_in};
ghost use Rattle.placement.specs.Slots.{slot_in, last_in};

use model::colour::{Colour, by_colour};
use model::finishes::AnyFinishes;
use rules::Board;

// The processors of the colour.
fn count_in(board: Board, colour: Colour) -> usize
    ensures { result ≡ count_in board colour }
{
    by_colour(colour, board.blue.processors, board.red.processors) as usize
}

// The place among the last finishes of the colour's processor p, counted from 0 within the colour.
pub fn slot_in(board: Board, colour: Colour, p: usize) -> usize
    requires processors { Processors board }
    requires p_bound { p < count_in board colour }
    ensures value { result ≡ slot_in board colour p }
    ensures upper_bound { result < all_processors }
{
    match colour {
        Colour::Blue => p,
        Colour::Red => board.blue.processors as usize + p,
    }
}

// The finish of the last run placed on that processor.
fn last_in(board: Board, finishes: &AnyFinishes, colour: Colour, p: usize) -> u64
    requires processors { Processors board }
    requires p_bound { p < count_in board colour }
    ensures { result ≡ last_in board finishes.now colour p }
{
    finishes.of(slot_in(board, colour, p))
}

// The latest last finish of the colour's processors that are free by the start; 0 if there are none.
fn latest_in(board: Board, finishes: &AnyFinishes, colour: Colour, start: u64) -> u64
    requires { Processors board }
    ensures { result ≡ max_where (count_in board colour)
        (λ p. leb (last_in board finishes.now colour p) start) (last_in board finishes.now colour) }
{
    (0..count_in(board, colour))
        .map(|p| last_in(board, finishes, colour, p))
        .filter(|finish| *finish <= start)
        .max()
        .unwrap_or(0)
}

// Whether a processor with this last finish is free by the start, and the finish is the latest of these.
fn is_latest_free(finish: u64, start: u64, latest: u64) -> bool
    ensures { result ≡ leb finish start && eqb finish latest }
{
    finish <= start && finish == latest
}

// The processor chosen, counted from 0 within the colour, if one is free by the start. The rules have the colour's count for none.
pub fn chosen_processor(
    board: Board,
    finishes: &AnyFinishes,
    colour: Colour,
    start: u64,
) -> Option<usize>
    requires { Processors board }
    ensures value { (I : Instance) (P : Schedule) → OnBoard board I → unwrap_or result (count_in board colour) ≡
        chosen_processor I (partial_on board P finishes.now) (as_colour colour) start }
    ensures exists { IfSome result (λ p. p < count_in board colour) }
{
    let latest = latest_in(board, finishes, colour, start);
    (0..count_in(board, colour)).find(|p| is_latest_free(
        last_in(board, finishes, colour, *p),
        start,
        latest,
    ))
}
