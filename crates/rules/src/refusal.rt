// What can be wrong with a text or a call, with the number and the place of each: document 01's, and 41 and 42 of Order 7.
ghost use Rattle.std.specs.Prelude.{◌≡◌};
ghost use Rattle.rules.specs.Text.{in_sheet, fault_number};
ghost use Rattle.rules.specs.Refusals.{as_fault, refusal_number, refusal_place};

use std::fmt;

// What is wrong with a text.
#[derive(Clone, Copy, PartialEq, Eq)]
pub enum Fault {
    // over `Board::MAX_TEXT` bytes
    TooLong,
    // a line of no form, without its LF, or absent
    Malformed,
    // a number out of its range
    OutOfRange,
    // a readable line that is not allowed there
    Undue,
}

impl Fault {
    // Its number in a board sheet.
    pub fn number(self) -> u64
        ensures { result ≡ fault_number in_sheet (as_fault self) }
    {
        match self {
            Fault::TooLong => 1,
            Fault::Malformed => 2,
            Fault::OutOfRange => 3,
            Fault::Undue => 4,
        }
    }
}

// Why a call refuses what it is given.
#[derive(Clone, Copy, PartialEq, Eq)]
pub enum Refusal {
    // 1 to 4: a fault of the board sheet, and its line
    Sheet(Fault, u64),
    // 11 to 14: a fault of the timetable, and its line
    Timetable(Fault, u64),
    // 15: two runs on one processor share an instant; the lowest such task
    Overlap(u64),
    // 16: an early start or move; the lowest reader
    Early(u64),
    // 17: more is held than the limit; the first such instant
    OverLimit(u64),
    // 18: the claim is untrue
    UntrueClaim,
    // 21: no ready task fits; the tasks placed
    Stuck(u64),
    // 31: the buffer is too short; the bytes needed
    Short(u64),
    // 41: over `Board::MAX_TASKS` tasks would result
    TooManyTasks,
    // 42: over `Board::MAX_FILES` files would result
    TooManyFiles,
}

impl Refusal {
    // Its number in an answer.
    pub fn number(self) -> u64
        ensures { result ≡ refusal_number self }
    {
        match self {
            Refusal::Sheet(fault, _) => fault.number(),
            Refusal::Timetable(fault, _) => 10 + fault.number(),
            Refusal::Overlap(_) => 15,
            Refusal::Early(_) => 16,
            Refusal::OverLimit(_) => 17,
            Refusal::UntrueClaim => 18,
            Refusal::Stuck(_) => 21,
            Refusal::Short(_) => 31,
            Refusal::TooManyTasks => 41,
            Refusal::TooManyFiles => 42,
        }
    }

    // The line, task, instant or size that the refusal names; 0 if it names none.
    pub fn place(self) -> u64
        ensures { result ≡ refusal_place self }
    {
        match self {
            Refusal::Sheet(_, place)
            | Refusal::Timetable(_, place)
            | Refusal::Overlap(place)
            | Refusal::Early(place)
            | Refusal::OverLimit(place)
            | Refusal::Stuck(place)
            | Refusal::Short(place) => place,
            Refusal::UntrueClaim | Refusal::TooManyTasks | Refusal::TooManyFiles => 0,
        }
    }
}

// `(refused N K)`, as the programs print it: its number, and its place.
impl fmt::Display for Refusal {
    ghost use Rattle.std.specs.Prelude.{Some};
    ghost use Rattle.rules.specs.Refusals.{refusal_text};

    ghost output = { λ r. Some (refusal_text r) };

    fn fmt<W: fmt::Write>(&self, f: &mut fmt::Formatter<W>) -> fmt::Result {
        write!(f, "(refused {} {})", self.number(), self.place())
    }
}
