// A memory's free amount as a staircase: ascending ticks, and what is free from each on. Document 02, Order 9.
#![tactic(auto)]

mod steps;

ghost use Rattle.std.specs.Prelude.{◌≡◌, ℕ, ◌+◌, ◌<◌, ◌≤◌, length, get_or, IfSome};
ghost use Rattle.rules.specs.Limits.{max_pairs};
ghost use Rattle.rules.specs.Staircase.{step_at, steps_after, free_from_steps, least_free};
ghost use Rattle.staircase.specs.Steps.{as_steps, start_steps, change_by, as_option, Fits, Position};

use arrayvec::ArrayVec;
use rules::Board;
use std::marker::Model;
use steps::{behind_last, change_at, settled, tick_of};

// Limits.max_pairs: the most steps of a staircase.
pub const PAIRS: usize = 1 + 2 * (Board::MAX_FILES + Board::MAX_TASKS);

// Document 02's pair: a tick, and the amount free from there on.
#[derive(Clone, Copy, Default)]
pub struct Step {
    pub tick: u64,
    pub free: u64,
}

// At least one step, the first at tick 0, and ascending. A contract sees the rules' list of pairs.
#[derive(Drop)]
pub struct Staircase {
    steps: ArrayVec<Step, PAIRS>,
}

impl Model for Staircase {
    ghost use Rattle.std.specs.Prelude.{List};
    ghost use Rattle.rules.specs.Staircase.{Step as Pair};
    ghost use Rattle.staircase.specs.Steps.{as_steps, Ascending};

    ghost Value = { List Pair };

    ghost view = { λ s. as_steps s.steps.items };

    ghost invariant = { λ s. Ascending (as_steps s.steps.items) };
}

// Starts 3 and 4.
#[derive(Clone, Copy)]
pub struct Starts {
    pub third: Option<u64>,
    pub fourth: Option<u64>,
}

impl Staircase {
    // The staircase of an empty plan.
    pub fn new(limit: u64) -> Self
        ensures { result ≡ start_steps limit }
    {
        let mut steps = ArrayVec::new();
        steps.push(Step {
            tick: 0,
            free: limit,
        });
        Staircase { steps }
    }

    // Behind the last step that is before `tick`.
    fn position(&self, tick: u64) -> usize
        ensures { Position self.now tick result }
    {
        behind_last(&self.steps, |step| step.tick < tick)
    }

    // The staircase after a rise or a fall of what is held. A struct of the three would be no plainer: `change_all` takes two of them.
    pub fn change(&mut self, tick: u64, amount: u64, rises: bool)
        requires room { length self.old < max_pairs }
        requires fits { Fits self.old (change_by tick amount rises) }
        ensures value { self.new ≡ steps_after (change_by tick amount rises) self.old }
        ensures upper_bound { length self.new ≤ length self.old + 1 }
    {
        let p = self.position(tick);
        change_at(&mut self.steps, p, tick, amount, rises);
    }

    // The steps, in order.
    pub fn steps(&self) -> &[Step]
        ensures { as_steps result.now ≡ self.now }
    {
        self.steps.as_slice()
    }

    // Starts 3 and 4, from these steps.
    pub fn both_from(&self, all: u64, some: u64) -> Starts
        requires { some ≤ all }
        ensures third_value { as_option result.third ≡ free_from_steps self.now all }
        ensures fourth_value { as_option result.fourth ≡ free_from_steps self.now some }
        ensures by_index { (b : ℕ) → ((k : ℕ) → k < length self.now → (step_at self.now k).tick ≤ b) →
            IfSome result.third (λ t. t ≤ b) × IfSome result.fourth (λ t. t ≤ b) }
    {
        both_from(self.steps(), all, some)
    }

    // The least amount of these steps.
    pub fn least(&self) -> u64
        ensures { result ≡ least_free self.now }
    {
        least(self.steps())
    }
}

// Starts 3 and 4 in one walk: from when on `all` is free, and from when on `some` of it. Any steps serve, in any order of ticks.
pub fn both_from(steps: &[Step], all: u64, some: u64) -> Starts
    requires { some ≤ all }
    ensures third_value { as_option result.third ≡ free_from_steps (as_steps steps.now) all }
    ensures fourth_value { as_option result.fourth ≡ free_from_steps (as_steps steps.now) some }
    ensures by_index { (b : ℕ) → ((k : ℕ) → k < length (as_steps steps.now) → (step_at (as_steps steps.now) k).tick ≤ b) →
        IfSome result.third (λ t. t ≤ b) × IfSome result.fourth (λ t. t ≤ b) }
{
    let third = settled(steps, all);
    let before = &steps[..third.unwrap_or(steps.len())];
    let fourth = settled(before, some).or(third);
    Starts {
        third: tick_of(steps, third),
        fourth: tick_of(steps, fourth),
    }
}

// The least amount of the steps, 0 if there is none.
pub fn least(steps: &[Step]) -> u64
    ensures { result ≡ least_free (as_steps steps.now) }
{
    steps.iter().map(|step| step.free).min().unwrap_or(0)
}
