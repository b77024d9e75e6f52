// The running total over changes in time order: the greatest, and where it is first over a limit.
ghost use Rattle.std.specs.Prelude.{◌≡◌, ◌≤◌, ltb, length};
ghost use Rattle.rules.specs.Changes.{greatest_total, first_over};
ghost use Rattle.model.specs.Colours.{as_colour};
ghost use Rattle.model.specs.Jobs.{instance_in, schedule_in};
ghost use Rattle.sorting.specs.Sorted.{capacity};
ghost use Rattle.changes.specs.Listed.{listed};
ghost use Rattle.changes.specs.Totals.{over_of, over_next, TotalsOf};

use super::change::{changed, tick_of};
use super::listing::{Changes, sorted_changes};
use model::colour::Colour;
use model::timetable::Timetable;

// The greatest total, and the tick of the first change after which the total is over a limit.
#[derive(Clone, Copy)]
pub struct Totals {
    pub greatest: u64,
    pub over: Option<u64>,
}

// The first tick over the limit, once a change at the tick leaves this total.
fn first_over(over: Option<u64>, tick: u64, total: u64, limit: u64) -> Option<u64>
    ensures { result ≡ over_next over (ltb limit total) tick }
{
    over.or((limit < total).then_some(tick))
}

// The totals over the changes, in the order in which they stand.
pub fn walk(changes: &[u64], limit: u64) -> Totals
    requires { length changes.now ≤ capacity }
    ensures greatest_value { result.greatest ≡ greatest_total (listed changes.now) }
    ensures over_value { over_of result.over ≡ first_over limit (listed changes.now) }
{
    let mut total = 0;
    let mut greatest = 0;
    let mut over = None;
    for change in changes {
        total = changed(*change, total);
        greatest = total.max(greatest);
        over = first_over(over, tick_of(*change), total, limit);
    }
    Totals { greatest, over }
}

// The totals of the memory of the colour.
pub fn totals_of(t: &Timetable, colour: Colour, limit: u64) -> Totals
    ensures { TotalsOf (instance_in t.now.job) (schedule_in t.now) (as_colour colour) limit result.greatest (over_of result.over) }
{
    let mut changes = Changes::new();
    sorted_changes(t, colour, &mut changes);
    walk(changes.as_slice(), limit)
}
