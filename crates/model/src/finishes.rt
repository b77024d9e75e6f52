// The last finishes that a planner keeps beside a partial schedule.
ghost use Rattle.std.specs.Prelude.{◌≡◌, ◌<◌, ◌≤◌, get_or, set, replicate, length};
ghost use Rattle.rules.specs.Limits.{all_processors};
ghost use Rattle.model.specs.Layout.{LastBounds, last_tick};

use rules::Board;
use std::marker::Model;

// The last finish of each processor, blue ones first; 0 where no task is placed. Any numbers. A contract sees the list.
#[derive(Drop)]
pub struct AnyFinishes {
    last: [u64; Board::ALL_PROCESSORS],
}

impl Model for AnyFinishes {
    ghost use Rattle.std.specs.Prelude.{◌≡◌, List, ℕ, length};
    ghost use Rattle.rules.specs.Limits.{all_processors};

    ghost Value = { List ℕ };

    ghost view = { λ f. f.last };

    ghost invariant = { λ f. length f.last ≡ all_processors };
}

impl AnyFinishes {
    // Of an empty schedule.
    pub fn new() -> Self
        ensures { result ≡ replicate all_processors 0 }
    {
        AnyFinishes {
            last: [0; Board::ALL_PROCESSORS],
        }
    }

    // Processor p's, counted from 0 among all.
    pub fn of(&self, p: usize) -> u64
        requires { p < all_processors }
        ensures value { result ≡ get_or self.now p 0 }
    {
        self.last[p]
    }

    // Writes processor p's.
    pub fn set(&mut self, p: usize, finish: u64)
        requires { p < all_processors }
        ensures value { self.new ≡ set self.old p finish }
        ensures whole { length self.old ≡ all_processors }
    {
        self.last[p] = finish;
    }
}

// Those of a planner's own schedule, of which none is later than the last tick. What asks for no such bound takes them by `as_any`.
#[derive(Drop)]
pub struct Finishes {
    pub any: AnyFinishes,
}

impl Model for Finishes {
    ghost use Rattle.std.specs.Prelude.{List, ℕ};
    ghost use Rattle.model.specs.Layout.{LastBounds};

    ghost Value = { List ℕ };

    ghost view = { λ f. f.any };

    ghost invariant = { λ f. LastBounds f.any };
}

impl Finishes {
    // Of an empty schedule.
    pub fn new() -> Self
        ensures { result ≡ replicate all_processors 0 }
    {
        Finishes {
            any: AnyFinishes::new(),
        }
    }

    // The same, for what asks for no bound.
    pub fn as_any(&self) -> &AnyFinishes
        ensures value { result.now ≡ self.now }
        ensures bounds { LastBounds self.now }
    {
        &self.any
    }

    // Processor p's, counted from 0 among all.
    pub fn of(&self, p: usize) -> u64
        requires { p < all_processors }
        ensures value { result ≡ get_or self.now p 0 }
        ensures upper_bound { result ≤ last_tick }
    {
        self.any.of(p)
    }

    // Writes processor p's.
    pub fn set(&mut self, p: usize, finish: u64)
        requires p_bound { p < all_processors }
        requires finish_bound { finish ≤ last_tick }
        ensures value { self.new ≡ set self.old p finish }
        ensures whole { length self.old ≡ all_processors }
    {
        self.any.set(p, finish);
    }
}
