// One step: its number and tick, and what each colour's processors run and its memory holds.
ghost use Rattle.std.specs.Prelude.{◌≡◌, ◌+◌, ◌*◌, ◌≤◌};
ghost use Rattle.rules.specs.Limits.{all_processors};
ghost use Rattle.framewatch.specs.Columns.{most_digits, row_column};

use crate::line::Line;
use crate::memory;
use frames::Simulation;
use model::colour::{Colour, by_colour};
use model::job::Job;
use rules::Board;

// The column at which processors and totals stand, and the columns of a processor.
const ROW: usize = 19;

const CELL: usize = 15;

// A processor and its task, 0 for none.
fn processor(p: u64, task: u64) -> Line
    ensures { result.used ≤ 2 * most_digits + 7 }
{
    let line = Line::new().number(p);
    if task == 0 {
        return line.text(b": idle");
    }
    line.text(b": task ").number(task)
}

// What `count` processors run, those behind the first `before`: four to a line.
fn processors(
    rt: &impl Print,
    line: Line,
    running: &[u64; Board::ALL_PROCESSORS],
    before: usize,
    count: usize,
) -> Line
    requires count_bound { before + count ≤ all_processors }
{
    let mut row = line;
    for p in 0..count {
        let cell = processor((before + p + 1) as u64, running[before + p]);
        row = row.item(rt, cell, ROW + CELL * (p % 4), ROW);
    }
    row
}

// The colour's name, before its processors.
fn label(line: Line, colour: Colour) -> Line
    requires { line.used ≡ 0 }
    ensures { result.used ≡ row_column }
{
    match colour {
        Colour::Blue => line.text(b"  blue  processor  "),
        Colour::Red => line.text(b"  red   processor  "),
    }
}

// One colour: what its processors run and what its memory holds.
fn side(rt: &impl Print, line: Line, job: &Job, state: Simulation, colour: Colour) -> Line
    requires { line.used ≡ 0 }
    ensures { result.used ≡ 0 }
{
    let running = state.running;
    let contents = state.contents;
    let blue = job.board.blue.processors;
    let before = by_colour(colour, 0, blue) as usize;
    let count = by_colour(colour, blue, job.board.red.processors) as usize;
    let runs = processors(rt, label(line, colour), &running, before, count).end(rt);
    let row = runs.text(b"        memory     ");
    memory::show(rt, row, job, &contents, colour).end(rt)
}

// A step: its number and tick, and what each colour does.
pub fn show(rt: &impl Print, line: Line, job: &Job, state: Simulation) -> Line
    requires { line.used ≡ 0 }
    ensures { result.used ≡ 0 }
{
    let head = line
        .text(b"step ")
        .number(state.made)
        .text(b", tick ")
        .number(state.time)
        .end(rt);
    let blue = side(rt, head, job, state, Colour::Blue);
    side(rt, blue, job, state, Colour::Red)
}
