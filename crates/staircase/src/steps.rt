// Steps of a staircase: those after a change, and the first of those that stay at an amount.
ghost use Rattle.std.specs.Prelude.{◌≡◌, true, false, ℕ, suc, ◌+◌, ◌<◌, ◌≤◌, map, length, get_or, option_map, IfSome, ◌≢◌};
ghost use Rattle.std.specs.Fn.{FnReturnsAt};
ghost use Rattle.std.specs.Option.{unwrap_or};
ghost use Rattle.rules.specs.Count.{settled_from};
ghost use Rattle.rules.specs.Limits.{max_pairs};
ghost use Rattle.rules.specs.Staircase.{free_by, suffices, steps_after};
ghost use Rattle.staircase.specs.Steps.{as_steps, no_step, change_by, max_free, with_change, Fit, Here};

use super::{PAIRS, Step};
use arrayvec::ArrayVec;

// The amount free after a change of what is held.
pub fn free_after(free: u64, amount: u64, rises: bool) -> u64
    requires most { free + amount ≤ max_free }
    requires enough { rises ≡ true → amount ≤ free }
    ensures { (tick : ℕ) → result ≡ free_by (change_by tick amount rises) free }
{
    if rises { free - amount } else { free + amount }
}

// Every step after the change.
pub fn change_all(steps: &mut [Step], amount: u64, rises: bool)
    requires { Fit amount rises steps.old }
    ensures { steps.new ≡ map (with_change amount rises) steps.old }
{
    for step in steps.iter_mut() {
        step.free = free_after(step.free, amount, rises);
    }
}

// Whether there is a step p, at `tick`.
pub fn stands_at(steps: &[Step], p: usize, tick: u64) -> bool
    ensures yes { result ≡ true → (p < length steps.now) × ((get_or steps.now p no_step).tick ≡ tick) }
    ensures no { result ≡ false → p < length steps.now → (get_or steps.now p no_step).tick ≢ tick }
{
    p < steps.len() && steps[p].tick == tick
}

// The steps after a change at `tick`, with p behind the last step that is before it.
pub fn change_at(steps: &mut ArrayVec<Step, PAIRS>, p: usize, tick: u64, amount: u64, rises: bool)
    requires room { length steps.old.items < max_pairs }
    requires here { Here (change_by tick amount rises) p steps.old.items }
    ensures { as_steps steps.new.items ≡ steps_after (change_by tick amount rises) (as_steps steps.old.items) }
{
    change_all(&mut steps.as_mut_slice()[p..], amount, rises);
    if p == 0 {
        return;
    }
    let before = steps[p - 1].free;
    if stands_at(steps, p, tick) {
        if steps[p].free == before {
            steps.remove(p);
        }
        return;
    }
    let free = free_after(before, amount, rises);
    if free != before {
        steps.insert(p, Step { tick, free });
    }
}

// Behind the last step that meets the test, or 0.
pub fn behind_last<F: Fn(&Step) -> bool>(steps: &[Step], test: F) -> usize
    requires { F.IsAlwaysCallable test }
    ensures within { result ≤ length steps.now }
    ensures met { (k : ℕ) → suc k ≡ result → FnReturnsAt F.Fn test (get_or steps.now k no_step) true }
    ensures unmet { (k : ℕ) → result ≤ k → k < length steps.now → FnReturnsAt F.Fn test (get_or steps.now k no_step) false }
{
    for k in (0..steps.len()).rev() {
        if test(&steps[k]) {
            return k + 1;
        }
    }
    0
}

// The first step from which on each has `need` free, if there is one. The rules have the number of steps for none.
pub fn settled(steps: &[Step], need: u64) -> Option<usize>
    ensures value { unwrap_or result (length steps.now) ≡ settled_from (length steps.now) (suffices (as_steps steps.now) need) }
    ensures exists { IfSome result (λ k. k < length steps.now) }
{
    let k = behind_last(steps, |step| step.free < need);
    (k < steps.len()).then_some(k)
}

// The tick of step k, if there is one.
pub fn tick_of(steps: &[Step], k: Option<usize>) -> Option<u64>
    requires { IfSome k (λ k. k < length steps.now) }
    ensures { result ≡ option_map (λ k. (get_or steps.now k no_step).tick) k }
{
    k.map(|k| steps[k].tick)
}
