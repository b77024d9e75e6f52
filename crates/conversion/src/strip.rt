// What is left of a schedule of the converted job: the runs and the moves of the old tasks and files, under their old numbers.
ghost use Rattle.std.specs.Prelude.{◌≡◌, ◌+◌, ◌≤◌};
ghost use Rattle.rules.specs.Limits.{max_tasks, max_files};
ghost use Rattle.rules.specs.Model.{Instance};
ghost use Rattle.rules.specs.Conversion.{added_count, stripped};
ghost use Rattle.model.specs.Layout.{entries_of, schedule_from};

use model::layout::Schedule;

// Writes what is left of the schedule of a converted job, whatever the second one held: the runs of `tasks` tasks and the moves of `files` files
// behind `added` ones. It takes no `Job`: the counts are all that it reads of the instance.
pub fn strip(tasks: usize, files: usize, added: usize, from: &Schedule, to: &mut Schedule)
    requires { (added + tasks ≤ max_tasks) × (added + files ≤ max_files) }
    ensures { (I : Instance) → added_count I ≡ added →
        schedule_from tasks files (entries_of to.new) ≡ stripped I (schedule_from (added + tasks) (added + files) (entries_of from.now)) }
{
    to.runs[..tasks].copy_from_slice(&from.runs[added..added + tasks]);
    to.moves[..files].copy_from_slice(&from.moves[added..added + files]);
}
