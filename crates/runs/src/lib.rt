// The runs of a schedule as a list of records: `first_overlap` walks a lent slice of them and leaves the work to `overlaps_any`.
#![tactic(auto)]

ghost use Rattle.std.specs.Prelude.{◌≡◌, ◌<◌, ltb, length, IsTrue, ◌↔◌, SomeIndex, get_or, true, IfSome};
ghost use Rattle.std.specs.Option.{unwrap_or};
ghost use Rattle.runs.specs.First.{FirstOverlap};
ghost use Rattle.runs.specs.Overlaps.{overlapping, overlaps_at, no_run};

// A run of a task: on a processor, from its start until its finish.
#[derive(Clone, Copy, Default)]
pub struct Run {
    pub processor: u64,
    pub start: u64,
    pub finish: u64,
}

// Whether a starts before b's finish.
fn starts_before_finish(a: Run, b: Run) -> bool
    ensures { result ≡ ltb a.start b.finish }
{
    a.start < b.finish
}

// Whether two runs are on one processor and share an instant: each starts before the other's finish.
#[tactic(auto, unfolding(crate::specs::Overlaps::overlapping))]
pub fn overlapping_runs(a: Run, b: Run) -> bool
    ensures { result ≡ overlapping a b }
{
    a.processor == b.processor && starts_before_finish(a, b) && starts_before_finish(b, a)
}

// Whether a run overlaps one of those behind it, which `first_overlap` asks of each run.
fn overlaps_any(later: &[Run], run: Run) -> bool
    ensures { IsTrue result ↔ SomeIndex later.now (λ k. overlaps_at later.now run k ≡ true) }
{
    later.iter().any(|other| overlapping_runs(*other, run))
}

// The lowest index whose run overlaps another's: a walk over the lent runs, which leaves the work to `overlaps_any`.
pub fn first_overlap(runs: &[Run]) -> Option<usize>
    ensures in_bounds { IfSome result (λ i. i < length runs.now) }
    ensures lowest { FirstOverlap runs.now (length runs.now) (unwrap_or result (length runs.now)) }
{
    for (i, run) in runs.iter().enumerate() {
        if overlaps_any(&runs[i + 1..], *run) {
            return Some(i);
        }
    }
    None
}
