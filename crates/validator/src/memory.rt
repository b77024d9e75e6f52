// What both memories say of a timetable: the first instant at which one is over its limit, and their peaks, by their changes (Order 8).
ghost use Rattle.model.specs.Jobs.{instance_in, schedule_in};
ghost use Rattle.changes.specs.Totals.{over_of};
ghost use Rattle.validator.specs.Memories.{ByChanges};

use changes::totals::totals_of;
use model::colour::Colour;
use model::tick::sooner;
use model::timetable::Timetable;

#[derive(Clone, Copy)]
pub struct Memories {
    pub over: Option<u64>,
    pub blue_peak: u64,
    pub red_peak: u64,
}

// The changes of each memory are listed, sorted and walked once.
pub fn walk_memories(t: &Timetable) -> Memories
    ensures { ByChanges (instance_in t.now.job) (schedule_in t.now) (over_of result.over) result.blue_peak result.red_peak }
{
    let board = t.job.board;
    let blue = totals_of(t, Colour::Blue, board.blue.limit);
    let red = totals_of(t, Colour::Red, board.red.limit);
    Memories {
        over: sooner(blue.over, red.over),
        blue_peak: blue.greatest,
        red_peak: red.greatest,
    }
}
