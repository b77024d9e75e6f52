// Writes a board sheet, each line behind the lines already laid down, or counts its bytes.
ghost use Rattle.std.specs.Prelude.{◌≡◌, ◌++◌, ◌≤◌, length};
ghost use Rattle.rules.specs.BoardType.{side_from};
ghost use Rattle.rules.specs.Text.{lf};
ghost use Rattle.rules.specs.InstanceText.{board_line, task_line, file_line, instance_bytes, task_lines, file_lines, instance_text};
ghost use Rattle.text.specs.Wrote.{Wrote};
ghost use Rattle.model.specs.Jobs.{instance_in};

use crate::line::{BOARD_FORM, FILE_FORM, TASK_FORM, WORK_FORM};
use model::colour::Colour;
use model::job::Job;
use rules::Board;
use text::{Count, Page, Sink};

// The board's line.
fn put_board<S: Sink>(sink: &mut S, board: Board)
    requires { S.room sink.old (instance_bytes (board_line (side_from board.blue) (side_from board.red)) ++ lf) }
    ensures { S.laid sink.old (instance_bytes (board_line (side_from board.blue) (side_from board.red)) ++ lf) sink.new }
{
    let numbers = [
        board.blue.processors,
        board.blue.limit,
        board.red.processors,
        board.red.limit,
    ];
    sink.line(&BOARD_FORM, &numbers);
}

// A task's line: W is left out if it is 0.
fn put_task<S: Sink>(sink: &mut S, i: u64, blue: u64, red: u64, work: u64)
    requires { S.room sink.old (instance_bytes (task_line i (record { on_blue = blue; on_red = red; work = work })) ++ lf) }
    ensures { S.laid sink.old (instance_bytes (task_line i (record { on_blue = blue; on_red = red; work = work })) ++ lf) sink.new }
{
    if work == 0 {
        sink.line(&TASK_FORM, &[i, blue, red]);
    } else {
        sink.line(&WORK_FORM, &[i, blue, red, work]);
    }
}

// A file's line.
fn put_file<S: Sink>(sink: &mut S, i: u64, j: u64, size: u64, time: u64)
    requires { S.room sink.old (instance_bytes (file_line i j size time) ++ lf) }
    ensures { S.laid sink.old (instance_bytes (file_line i j size time) ++ lf) sink.new }
{
    sink.line(&FILE_FORM, &[i, j, size, time]);
}

// The tasks' lines.
fn put_tasks<S: Sink>(sink: &mut S, job: &Job<'_>)
    requires { S.room sink.old (task_lines (instance_in job.now) (length job.now.tasks.now)) }
    ensures { S.laid sink.old (task_lines (instance_in job.now) (length job.now.tasks.now)) sink.new }
{
    for i in 0..job.tasks.len() {
        let blue = job.run_time(i, Colour::Blue);
        let red = job.run_time(i, Colour::Red);
        let work = job.work(i);
        put_task(sink, i as u64 + 1, blue, red, work);
    }
}

// The files' lines.
fn put_files<S: Sink>(sink: &mut S, job: &Job<'_>)
    requires { S.room sink.old (file_lines (instance_in job.now) (length job.now.files.now)) }
    ensures { S.laid sink.old (file_lines (instance_in job.now) (length job.now.files.now)) sink.new }
{
    for k in 0..job.files.len() {
        let maker = job.maker(k) as u64;
        let reader = job.reader(k) as u64;
        let size = job.size(k);
        let time = job.move_time(k);
        put_file(sink, maker + 1, reader + 1, size, time);
    }
}

// The whole sheet.
fn put_sheet<S: Sink>(sink: &mut S, job: &Job<'_>)
    requires { S.room sink.old (instance_text (instance_in job.now)) }
    ensures { S.laid sink.old (instance_text (instance_in job.now)) sink.new }
{
    put_board(sink, job.board);
    put_tasks(sink, job);
    put_files(sink, job);
}

// How many bytes a board sheet takes.
pub fn instance_size(job: &Job<'_>) -> usize
    ensures { result ≡ length (instance_text (instance_in job.now)) }
{
    let mut count = Count { bytes: 0 };
    put_sheet(&mut count, job);
    count.bytes
}

// Writes a board sheet at the front of `out`, and returns how many bytes that takes.
pub fn write(job: &Job<'_>, out: &mut [u8]) -> usize
    requires { length (instance_text (instance_in job.now)) ≤ length out.old }
    ensures { Wrote (instance_text (instance_in job.now)) result out.old out.new }
{
    let mut page = Page { out, at: 0 };
    put_sheet(&mut page, job);
    page.at
}
