// The simulator's answer, and the numbers of each of its cases.
ghost use Rattle.std.specs.Prelude.{◌≡◌};
ghost use Rattle.rules.specs.Simulation.{before, number_of, place_of, left_of, span_of};
ghost use Rattle.simulator.specs.Answers.{fault_number, as_progress, as_simulation};

use rules::{Board, Refusal};

// What stops a walk at a tick, in the order in which it is looked for.
#[derive(Clone, Copy, PartialEq, Eq)]
pub enum TickFault {
    // 15: two runs on one processor share an instant
    Overlap,
    // 16: a file moves or is read before it is there
    Early,
    // 17: a memory would hold more than its limit
    OverLimit,
}

impl TickFault {
    // Its number, which the marker's refusal for the same fault has too.
    pub fn number(self) -> u64
        ensures { result ≡ fault_number self }
    {
        match self {
            TickFault::Overlap => Refusal::Overlap(0).number(),
            TickFault::Early => Refusal::Early(0).number(),
            TickFault::OverLimit => Refusal::OverLimit(0).number(),
        }
    }
}

// How a walk ends: with steps left, stopped for the fault of a tick, or ended, with the span.
#[derive(Clone, Copy, PartialEq, Eq)]
pub enum Progress {
    StepsLeft,
    Stopped { fault: TickFault, tick: u64 },
    Ended { span: u64 },
}

impl Progress {
    // The number of a fault, else 0.
    pub fn number(self) -> u64
        ensures { result ≡ number_of (as_progress self) }
    {
        match self {
            Progress::Stopped { fault, .. } => fault.number(),
            Progress::StepsLeft | Progress::Ended { .. } => 0,
        }
    }

    // The tick of a fault, else 0.
    pub fn place(self) -> u64
        ensures { result ≡ place_of (as_progress self) }
    {
        match self {
            Progress::Stopped { tick, .. } => tick,
            Progress::StepsLeft | Progress::Ended { .. } => 0,
        }
    }

    // 1 if steps are left, else 0: a number, since the C interface gives it as one.
    pub fn left(self) -> u64
        ensures { result ≡ left_of (as_progress self) }
    {
        match self {
            Progress::StepsLeft => 1,
            Progress::Stopped { .. } | Progress::Ended { .. } => 0,
        }
    }

    // The span at the end, else 0.
    pub fn span(self) -> u64
        ensures { result ≡ span_of (as_progress self) }
    {
        match self {
            Progress::Ended { span } => span,
            Progress::StepsLeft | Progress::Stopped { .. } => 0,
        }
    }
}

// How a walk ends, with the steps made in all and the state that it leaves: the time; for each processor the task that it runs,
// or 0; for each file where it is held: 0 nowhere, 1 in blue, 2 in red, 3 in both. These are the numbers that the C interface gives.
#[derive(Clone, Copy)]
pub struct Simulation {
    pub progress: Progress,
    pub made: u64,
    pub time: u64,
    pub running: [u64; Board::ALL_PROCESSORS],
    pub contents: [u64; Board::MAX_FILES],
}

impl Simulation {
    // No step is made: the state before the first.
    pub fn before_first(progress: Progress) -> Simulation
        ensures { as_simulation result ≡ record { progress = as_progress progress; made = 0; state = before } }
    {
        Simulation {
            progress,
            made: 0,
            time: 0,
            running: [0; Board::ALL_PROCESSORS],
            contents: [0; Board::MAX_FILES],
        }
    }
}
