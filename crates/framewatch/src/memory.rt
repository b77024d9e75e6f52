// The files that a memory holds: their total, the limit and each of them.
ghost use Rattle.std.specs.Prelude.{◌≡◌, ◌+◌, ◌<◌, ◌≤◌, get_or, length};
ghost use Rattle.rules.specs.Limits.{max_tasks, file_sizes};
ghost use Rattle.rules.specs.Model.{size_at};
ghost use Rattle.rules.specs.Count.{sum_where};
ghost use Rattle.rules.specs.SimulationPromises.{is_in};
ghost use Rattle.model.specs.Colours.{as_colour};
ghost use Rattle.model.specs.Jobs.{instance_in};
ghost use Rattle.model.specs.Layout.{most_files};
ghost use Rattle.framewatch.specs.Columns.{width, row_column, limit_columns, file_columns};

use crate::line::Line;
use model::colour::{Colour, by_colour};
use model::job::Job;
use rules::Board;

// Whether the memory of the colour holds a file, by where it is held: 1 in blue, 2 in red, 3 in both.
fn holds(colour: Colour, held: u64) -> bool
    ensures { result ≡ is_in (as_colour colour) held }
{
    held == 3 || held == by_colour(colour, 1, 2)
}

// The sizes together of the files that the memory of the colour holds.
fn total(job: &Job, contents: &[u64; Board::MAX_FILES], colour: Colour) -> u64
    ensures value { result ≡
        sum_where (length job.now.files.now) (λ k. is_in (as_colour colour) (get_or contents.now k 0)) (size_at (instance_in job.now)) }
    ensures upper_bound { result ≤ most_files }
{
    let mut sum = 0;
    for k in 0..job.files.len() {
        if holds(colour, contents[k]) {
            sum += job.size(k);
        }
    }
    sum
}

// A file: maker, reader and size, and whether it is being moved.
fn file(maker: u64, reader: u64, size: u64, moving: bool) -> Line
    requires { (maker ≤ max_tasks) × (reader ≤ max_tasks) × (size ≤ file_sizes.most) }
    ensures { result.used ≤ file_columns }
{
    let line = Line::new()
        .text(b"(")
        .number(maker)
        .text(b" ")
        .number(reader)
        .text(b") ")
        .number(size);
    if moving { line.text(b" moving") } else { line }
}

// The line with file k behind it, if the memory of the colour holds it. What both memories hold is being moved, and in a step that was
// made nothing else is: no file moves before it is made or is read before it arrives.
fn with_file(
    rt: &impl Print,
    line: Line,
    job: &Job,
    colour: Colour,
    k: usize,
    held: u64,
    hang: usize,
) -> Line
    requires k_lt_files { k < length job.now.files.now }
    requires file_columns_bound { hang + file_columns ≤ width }
{
    if holds(colour, held) {
        let maker = job.maker(k) as u64 + 1;
        let reader = job.reader(k) as u64 + 1;
        let shown = file(maker, reader, job.size(k), held == 3);
        let column = line.used + 3;
        return line.item(rt, shown, column, hang);
    }
    line
}

// The files that the memory of the colour holds.
fn files(
    rt: &impl Print,
    line: Line,
    job: &Job,
    contents: &[u64; Board::MAX_FILES],
    colour: Colour,
    hang: usize,
) -> Line
    requires file_columns_bound { hang + file_columns ≤ width }
{
    let mut row = line;
    for k in 0..job.files.len() {
        row = with_file(rt, row, job, colour, k, contents[k], hang);
    }
    row
}

// The columns that the greater limit of the board takes.
fn limit_columns(job: &Job) -> usize
    ensures { result ≤ limit_columns }
{
    text::number_size(job.board.blue.limit.max(job.board.red.limit))
}

// The line with the files that the memory of the colour holds behind it: their total and the limit, aligned from colour to colour, and each file.
pub fn show(
    rt: &impl Print,
    line: Line,
    job: &Job,
    contents: &[u64; Board::MAX_FILES],
    colour: Colour,
) -> Line
    requires { line.used ≤ row_column }
{
    let columns = limit_columns(job);
    let held = total(job, contents, colour);
    let limit = by_colour(colour, job.board.blue.limit, job.board.red.limit);
    let row = line
        .right(held, columns)
        .text(b" of ")
        .right(limit, columns);
    let hang = row.used + 3;
    files(rt, row, job, contents, colour, hang)
}
