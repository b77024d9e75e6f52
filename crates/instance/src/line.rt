// What a line of a board sheet says.
ghost use Rattle.std.specs.Prelude.{◌≡◌, [], ◌∷◌, ◌&&◌};
ghost use Rattle.rules.specs.Limits.{task_numbers, run_times, in_range};
ghost use Rattle.rules.specs.Text.{if_in_range};
ghost use Rattle.rules.specs.InstanceText.{task_line, as_board, as_work, as_file};
ghost use Rattle.instance.specs.Lines.{as_reading, NextLine};

use rules::{Board, Fault, Side, between};
use text::Taken;

// The forms; `#` stands for a number. A task with W has the third.
pub const BOARD_FORM: [u8; 28] = *b"(board (blue # #) (red # #))";

pub const TASK_FORM: [u8; 12] = *b"(task # # #)";

pub const WORK_FORM: [u8; 14] = *b"(task # # # #)";

pub const FILE_FORM: [u8; 14] = *b"(file # # # #)";

// The same in two parts: a word, and the numbers.
const BOARD_WORD: [u8; 13] = *b"(board (blue ";

const TASK_WORD: [u8; 6] = *b"(task ";

const FILE_WORD: [u8; 6] = *b"(file ";

const BOARD_NUMBERS: [u8; 15] = *b"# #) (red # #))";

const THREE_NUMBERS: [u8; 6] = *b"# # #)";

const FOUR_NUMBERS: [u8; 8] = *b"# # # #)";

// What a line says. A task's `work` is 0 where W is left out.
#[derive(Clone, Copy)]
pub enum Line {
    Board {
        board: Board,
    },
    Task {
        i: u64,
        blue: u64,
        red: u64,
        work: u64,
    },
    File {
        i: u64,
        j: u64,
        size: u64,
        time: u64,
    },
}

// Whether n can be a task's number. This and the next are `between` by the names that the lines below ask for.
fn is_task(n: u64) -> bool
    ensures { result ≡ in_range task_numbers n }
{
    between(n, Board::MIN_TASK, Board::MAX_TASK)
}

// Whether n can be a run time.
fn is_run_time(n: u64) -> bool
    ensures { result ≡ in_range run_times n }
{
    between(n, Board::MIN_RUN_TIME, Board::MAX_RUN_TIME)
}

// The board line of its numbers.
fn board_of(blue: u64, bound: u64, red: u64, limit: u64) -> Result<Line, Fault>
    ensures { as_reading result ≡ as_board (blue ∷ bound ∷ red ∷ limit ∷ []) }
{
    let first = Side {
        processors: blue,
        limit: bound,
    };
    let second = Side {
        processors: red,
        limit,
    };
    let board = Board::new(first, second).ok_or(Fault::OutOfRange)?;
    Ok(Line::Board { board })
}

// The task line of its numbers, with a working memory in its range or left out.
fn task_of(i: u64, blue: u64, red: u64, work: u64) -> Result<Line, Fault>
    ensures { as_reading result ≡
        if_in_range (in_range task_numbers i && in_range run_times blue && in_range run_times red)
        (task_line i (record { on_blue = blue; on_red = red; work = work })) }
{
    if is_task(i) && is_run_time(blue) && is_run_time(red) {
        Ok(Line::Task { i, blue, red, work })
    } else {
        Err(Fault::OutOfRange)
    }
}

// The task line of its numbers, with W written.
fn work_of(i: u64, blue: u64, red: u64, work: u64) -> Result<Line, Fault>
    ensures { as_reading result ≡ as_work (i ∷ blue ∷ red ∷ work ∷ []) }
{
    if !between(work, Board::MIN_WORK, Board::MAX_WORK) {
        return Err(Fault::OutOfRange);
    }
    task_of(i, blue, red, work)
}

// The file line of its numbers.
fn file_of(i: u64, j: u64, size: u64, time: u64) -> Result<Line, Fault>
    ensures { as_reading result ≡ as_file (i ∷ j ∷ size ∷ time ∷ []) }
{
    if is_task(i)
        && is_task(j)
        && between(size, Board::MIN_SIZE, Board::MAX_SIZE)
        && between(time, Board::MIN_MOVE_TIME, Board::MAX_MOVE_TIME)
    {
        Ok(Line::File { i, j, size, time })
    } else {
        Err(Fault::OutOfRange)
    }
}

// The next line of a text, by the form that it has; malformed where it has none, lacks its LF or is absent.
pub fn next_line(sheet: &[u8]) -> Result<Taken<'_, Line>, Fault>
    ensures { NextLine sheet.now result }
{
    if let Some(found) = text::line_by(&FILE_WORD, &FOUR_NUMBERS, sheet) {
        let [i, j, size, time] = found.numbers;
        let value = file_of(i, j, size, time)?;
        return Ok(found.with(value));
    }
    if let Some(found) = text::line_by(&TASK_WORD, &THREE_NUMBERS, sheet) {
        let [i, blue, red, _] = found.numbers;
        let value = task_of(i, blue, red, 0)?;
        return Ok(found.with(value));
    }
    if let Some(found) = text::line_by(&TASK_WORD, &FOUR_NUMBERS, sheet) {
        let [i, blue, red, work] = found.numbers;
        let value = work_of(i, blue, red, work)?;
        return Ok(found.with(value));
    }
    let Some(found) = text::line_by(&BOARD_WORD, &BOARD_NUMBERS, sheet) else {
        return Err(Fault::Malformed);
    };
    let [blue, bound, red, limit] = found.numbers;
    let value = board_of(blue, bound, red, limit)?;
    Ok(found.with(value))
}
