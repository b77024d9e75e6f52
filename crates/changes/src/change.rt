// A change as one number: twice its tick, one more for a rise, and below that the amount. So numbers in the order of their keys are
// changes in time order, falls before rises at one tick. A number and no record, since the sort goes by digits of one number, and a
// number takes half the bytes of a record.
ghost use Rattle.std.specs.Prelude.{◌≡◌, ◌+◌, ◌*◌, ◌<◌, ◌≤◌};
ghost use Rattle.rules.specs.Changes.{changed_by};
ghost use Rattle.model.specs.Layout.{last_tick};
ghost use Rattle.sorting.specs.Sorted.{capacity, unit};
ghost use Rattle.changes.specs.Packed.{packed as packed-change, unpacked};

use sorting::KEY;

// Above every amount.
const UNIT: u64 = 1 << KEY;

pub fn packed(tick: u64, rises: bool, amount: u64) -> u64
    requires { (tick ≤ last_tick) × (amount < unit) }
    ensures { result ≡ packed-change (record { tick = tick; rises = rises; amount = amount }) }
{
    (tick * 2 + u64::from(rises)) * UNIT + amount
}

pub fn tick_of(change: u64) -> u64
    ensures { result ≡ (unpacked change).tick }
{
    change / UNIT / 2
}

// The total after the change.
pub fn changed(change: u64, total: u64) -> u64
    requires { total ≤ capacity * unit }
    ensures value { result ≡ changed_by (unpacked change) total }
    ensures upper_bound { result ≤ total + unit }
{
    let amount = change % UNIT;
    if change / UNIT % 2 == 1 {
        total + amount
    } else {
        total.saturating_sub(amount)
    }
}
