// The instance with one line more.
ghost use Rattle.std.specs.Prelude.{◌≡◌};
ghost use Rattle.rules.specs.declared.Board.{Board as AnyBoard};
ghost use Rattle.rules.specs.Text.{or_undue};
ghost use Rattle.rules.specs.InstanceText.{task_line, file_line, ascends, file_allowed, with_board, with_line};
ghost use Rattle.rules.specs.Limits.{task_numbers};
ghost use Rattle.rules.specs.Promises.{In};
ghost use Rattle.model.specs.Layout.{instance_with};
ghost use Rattle.instance.specs.Lines.{as_line, Numbered};
ghost use Rattle.instance.specs.Steps.{as_start, as_step};

use crate::line::Line;
use model::layout::Numbers;
use rules::{Board, Fault};

// The board line is due first.
pub fn first(line: Line) -> Result<Board, Fault>
    ensures { as_start result ≡ or_undue (with_board (as_line line)) }
{
    let Line::Board { board } = line else {
        return Err(Fault::Undue);
    };
    Ok(board)
}

// A task's line: the next task, before any file.
fn add_task(numbers: &mut Numbers, i: u64, blue: u64, red: u64, work: u64) -> Result<(), Fault>
    requires { In task_numbers i }
    ensures { (b : AnyBoard) → as_step b result numbers.new ≡
        or_undue (with_line (instance_with b numbers.old) (task_line i (record { on_blue = blue; on_red = red; work = work }))) }
{
    if !numbers.files.is_empty() || i != numbers.tasks.len() as u64 + 1 {
        return Err(Fault::Undue);
    }
    numbers.push_task(blue, red, work);
    Ok(())
}

// Whether a pair of tasks, counted from 0, is behind that of the last file.
fn ascending(numbers: &Numbers, i: u64, j: u64) -> bool
    ensures { (b : AnyBoard) → result ≡ ascends (instance_with b numbers.now) i j }
{
    match numbers.files.as_slice().last() {
        Some(last) => (last.maker, last.reader) < (i, j),
        None => true,
    }
}

// Whether a file from task i to task j, counted from 1, may come next.
fn file_allowed(numbers: &Numbers, i: u64, j: u64) -> bool
    requires { In task_numbers i }
    ensures { (b : AnyBoard) → result ≡ file_allowed (instance_with b numbers.now) i j }
{
    if j <= i || (numbers.tasks.len() as u64) < j || numbers.files.is_full() {
        return false;
    }
    ascending(numbers, i - 1, j - 1)
}

// A file's line.
fn add_file(numbers: &mut Numbers, i: u64, j: u64, size: u64, time: u64) -> Result<(), Fault>
    requires { In task_numbers i × In task_numbers j }
    ensures { (b : AnyBoard) → as_step b result numbers.new ≡
        or_undue (with_line (instance_with b numbers.old) (file_line i j size time)) }
{
    if !file_allowed(numbers, i, j) {
        return Err(Fault::Undue);
    }
    numbers.push_file(i - 1, j - 1, size, time);
    Ok(())
}

// Behind the board line a task or a file is due.
pub fn add(numbers: &mut Numbers, line: Line) -> Result<(), Fault>
    requires { Numbered line }
    ensures { (b : AnyBoard) → as_step b result numbers.new ≡ or_undue (with_line (instance_with b numbers.old) (as_line line)) }
{
    match line {
        Line::Board { .. } => Err(Fault::Undue),
        Line::Task { i, blue, red, work } => add_task(numbers, i, blue, red, work),
        Line::File { i, j, size, time } => add_file(numbers, i, j, size, time),
    }
}
