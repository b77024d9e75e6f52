// A board sheet, read line by line.
ghost use Rattle.std.specs.Prelude.{◌≡◌, ◌≤◌, length, IfOk};
ghost use Rattle.rules.specs.declared.Board.{Board as AnyBoard};
ghost use Rattle.rules.specs.Text.{lines_of};
ghost use Rattle.rules.specs.InstanceText.{instance_line, with_board, with_line, read_rest, read_instance};
ghost use Rattle.rules.specs.Limits.{max_text};
ghost use Rattle.rules.specs.Promises.{WellFormed};
ghost use Rattle.model.specs.Jobs.{instance_in};
ghost use Rattle.model.specs.Layout.{instance_with};
ghost use Rattle.text.specs.Due.{TakesDue};
ghost use Rattle.instance.specs.Steps.{board_alone};
ghost use Rattle.instance.specs.Reads.{IsRead, IsJob};

use crate::build::{add, first};
use crate::line::next_line;
use model::job::Job;
use model::layout::Numbers;
use rules::{Board, Fault, Refusal};
use text::Taken;

// The board's line.
fn begin(sheet: &[u8]) -> Result<Taken<'_, Board>, Fault>
    ensures { TakesDue instance_line with_board board_alone sheet.now result }
{
    let next = next_line(sheet)?;
    let value = first(next.value)?;
    Ok(next.with(value))
}

// A line behind the board's.
fn go_on<'a>(sheet: &'a [u8], numbers: &mut Numbers) -> Result<Taken<'a, ()>, Fault>
    ensures { (b : AnyBoard) → TakesDue instance_line (with_line (instance_with b numbers.old)) (λ u. instance_with b numbers.new) sheet.now result }
{
    let next = next_line(sheet)?;
    let value = add(numbers, next.value)?;
    Ok(next.with(value))
}

// The lines behind the board's; the first of them is line 2. The loop goes down the text that is left: no iterator of the library takes lines
// by their form.
fn rest_of(board: Board, sheet: &[u8], numbers: &mut Numbers) -> Result<Board, Refusal>
    requires { length sheet.now ≤ max_text }
    ensures { IsRead result numbers.new (read_rest (instance_with board numbers.old) 2 (lines_of sheet.now)) }
{
    let mut rest = sheet;
    let mut line = 2;
    while !rest.is_empty() {
        let step = go_on(rest, numbers).map_err(|fault| Refusal::Sheet(fault, line))?;
        rest = step.rest;
        line += 1;
    }
    if numbers.tasks.is_empty() {
        return Err(Refusal::Sheet(Fault::Malformed, line));
    }
    Ok(board)
}

// Reads a board sheet. Where it is accepted, its board is the answer, and `numbers` holds its tasks and files; what it held before plays no part.
pub fn read(sheet: &[u8], numbers: &mut Numbers) -> Result<Board, Refusal>
    ensures { IsRead result numbers.new (read_instance sheet.now) }
{
    if Board::MAX_TEXT < sheet.len() {
        return Err(Refusal::Sheet(Fault::TooLong, 0));
    }
    let step = begin(sheet).map_err(|fault| Refusal::Sheet(fault, 1))?;
    numbers.clear();
    rest_of(step.value, step.rest, numbers)
}

// The job of a board sheet, if it is accepted: its tasks and files are those that `numbers` then holds.
pub fn job_of<'a>(sheet: &[u8], numbers: &'a mut Numbers) -> Result<Job<'a>, Refusal>
    ensures answer { IsJob result (read_instance sheet.now) }
    ensures well_formed { IfOk result (λ j. WellFormed (instance_in j)) }
{
    let board = read(sheet, numbers)?;
    Ok(numbers.job(board))
}
