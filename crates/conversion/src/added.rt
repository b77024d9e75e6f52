// How many tasks and files the conversion adds.
ghost use Rattle.std.specs.Prelude.{◌≡◌, ◌≤◌, List, length, filter, ltb};
ghost use Rattle.rules.specs.declared.Board.{Board};
ghost use Rattle.rules.specs.Conversion.{added_count};
ghost use Rattle.model.specs.declared.layout.File.{File};
ghost use Rattle.model.specs.Layout.{instance_of};

use model::layout::Task;

// How many of the tasks have W.
fn with_work(tasks: &[Task]) -> usize
    ensures { result ≡ length (filter (λ task. ltb 0 task.work) tasks.now) }
{
    tasks.iter().filter(|task| 0 < task.work).count()
}

// How many tasks have W: document 02's m. It takes no `Job`, since it reads the tasks alone.
pub fn added(tasks: &[Task]) -> usize
    ensures value { (b : Board) (fs : List File) → result ≡ added_count (instance_of b tasks.now fs) }
    ensures upper_bound { result ≤ length tasks.now }
{
    with_work(tasks)
}
