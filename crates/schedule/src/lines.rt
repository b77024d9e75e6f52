// What a line of a timetable says.
ghost use Rattle.std.specs.Prelude.{◌≡◌, [], ◌∷◌};
ghost use Rattle.rules.specs.ScheduleText.{as_run, as_move, as_claim as claim_from};
ghost use Rattle.model.specs.Jobs.{instance_in};
ghost use Rattle.schedule.specs.Lines.{as_reading, NextLine};

use model::claim::Claim;
use model::job::Job;
use rules::{Board, Fault, between};
use text::Taken;

// The three forms; `#` stands for a number.
pub const RUN_FORM: [u8; 11] = *b"(run # # #)";

pub const MOVE_FORM: [u8; 12] = *b"(move # # #)";

pub const CLAIM_FORM: [u8; 13] = *b"(claim # # #)";

// The same in two parts: a word, and the numbers.
const RUN_WORD: [u8; 5] = *b"(run ";

const MOVE_WORD: [u8; 6] = *b"(move ";

const CLAIM_WORD: [u8; 7] = *b"(claim ";

const THREE_NUMBERS: [u8; 6] = *b"# # #)";

#[derive(Clone, Copy)]
pub enum Line {
    Run { i: u64, processor: u64, start: u64 },
    Move { i: u64, j: u64, start: u64 },
    Claim { claim: Claim },
}

// The numbers of a run line; processors are counted from 1, over both colours.
fn run_of(job: &Job<'_>, i: u64, processor: u64, start: u64) -> Result<Line, Fault>
    ensures { as_reading result ≡ as_run (instance_in job.now) (i ∷ processor ∷ start ∷ []) }
{
    let processors = job.board.blue.processors + job.board.red.processors;
    if between(i, Board::MIN_TASK, Board::MAX_TASK)
        && between(processor, 1, processors)
        && between(start, Board::MIN_TICK, Board::MAX_TICK)
    {
        Ok(Line::Run {
            i,
            processor,
            start,
        })
    } else {
        Err(Fault::OutOfRange)
    }
}

// The numbers of a move line.
fn move_of(i: u64, j: u64, start: u64) -> Result<Line, Fault>
    ensures { as_reading result ≡ as_move (i ∷ j ∷ start ∷ []) }
{
    if between(i, Board::MIN_TASK, Board::MAX_TASK)
        && between(j, Board::MIN_TASK, Board::MAX_TASK)
        && between(start, Board::MIN_TICK, Board::MAX_TICK)
    {
        Ok(Line::Move { i, j, start })
    } else {
        Err(Fault::OutOfRange)
    }
}

// The numbers of a claim line.
fn claim_of(span: u64, blue_peak: u64, red_peak: u64) -> Result<Line, Fault>
    ensures { as_reading result ≡ claim_from (span ∷ blue_peak ∷ red_peak ∷ []) }
{
    if between(span, Board::MIN_TICK, Board::MAX_TICK)
        && between(blue_peak, Board::MIN_TICK, Board::MAX_TICK)
        && between(red_peak, Board::MIN_TICK, Board::MAX_TICK)
    {
        let claim = Claim {
            span,
            blue_peak,
            red_peak,
        };
        Ok(Line::Claim { claim })
    } else {
        Err(Fault::OutOfRange)
    }
}

// The next line of a text, by the form that it has; malformed where it has none, lacks its LF or is absent.
pub fn next_line<'a>(job: &Job<'_>, paper: &'a [u8]) -> Result<Taken<'a, Line>, Fault>
    ensures { NextLine (instance_in job.now) paper.now result }
{
    if let Some(found) = text::line_by(&MOVE_WORD, &THREE_NUMBERS, paper) {
        let [i, j, start, _] = found.numbers;
        let value = move_of(i, j, start)?;
        return Ok(found.with(value));
    }
    if let Some(found) = text::line_by(&RUN_WORD, &THREE_NUMBERS, paper) {
        let [i, processor, start, _] = found.numbers;
        let value = run_of(job, i, processor, start)?;
        return Ok(found.with(value));
    }
    let Some(found) = text::line_by(&CLAIM_WORD, &THREE_NUMBERS, paper) else {
        return Err(Fault::Malformed);
    };
    let [span, blue_peak, red_peak, _] = found.numbers;
    let value = claim_of(span, blue_peak, red_peak)?;
    Ok(found.with(value))
}
