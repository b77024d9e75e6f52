// The converted job: the added tasks and files first, then the old ones, shifted and without W.
ghost use Rattle.std.specs.Prelude.{◌≡◌, ◌+◌, ◌≤◌, ◌<◌, length};
ghost use Rattle.rules.specs.Count.{count_where};
ghost use Rattle.rules.specs.Limits.{max_tasks, max_files};
ghost use Rattle.rules.specs.Model.{Instance};
ghost use Rattle.rules.specs.Conversion.{has_work, added_count, converted};
ghost use Rattle.model.specs.Layout.{no_numbers, instance_with};
ghost use Rattle.model.specs.Jobs.{instance_in};
ghost use Rattle.conversion.specs.Stored.{Stored};

use model::colour::Colour;
use model::job::Job;
use model::layout::Numbers;

// The added tasks, of times 0 and 0, behind what the target holds.
fn add_tasks(added: usize, target: &mut Numbers)
    requires { length target.old.tasks.items + added ≤ max_tasks }
    ensures { (I : Instance) → added ≡ added_count I → target.old ≡ no_numbers → Stored I target.new added 0 }
{
    for k in 0..added {
        target.push_task(0, 0, 0);
    }
}

// Task i, without its W, and the file that the W becomes: file k, made by the added task k. Returns how many files are then stored.
fn convert_task(job: &Job<'_>, added: usize, i: usize, k: usize, target: &mut Numbers) -> usize
    requires added_value { added ≡ added_count (instance_in job.now) }
    requires tasks_bound { added + length job.now.tasks.now ≤ max_tasks }
    requires i_lt_tasks { i < length job.now.tasks.now }
    requires k_value { k ≡ count_where i (has_work (instance_in job.now)) }
    requires stored { Stored (instance_in job.now) target.old (added + i) k }
    ensures value { result ≡ count_where (i + 1) (has_work (instance_in job.now)) }
    ensures stored_2 { Stored (instance_in job.now) target.new (added + i + 1) result }
{
    let blue = job.run_time(i, Colour::Blue);
    let red = job.run_time(i, Colour::Red);
    let work = job.work(i);
    target.push_task(blue, red, 0);
    if work == 0 {
        return k;
    }
    target.push_file(k as u64, (added + i) as u64, work, 1);
    k + 1
}

// All tasks, and the added files.
fn convert_tasks(job: &Job<'_>, added: usize, target: &mut Numbers)
    requires added_value { added ≡ added_count (instance_in job.now) }
    requires tasks_bound { added + length job.now.tasks.now ≤ max_tasks }
    requires stored { Stored (instance_in job.now) target.old added 0 }
    ensures { Stored (instance_in job.now) target.new (added + length job.now.tasks.now) added }
{
    let mut k = 0;
    for i in 0..job.tasks.len() {
        k = convert_task(job, added, i, k, target);
    }
}

// File k, with both its tasks shifted.
fn convert_file(job: &Job<'_>, added: usize, k: usize, target: &mut Numbers)
    requires added_value { added ≡ added_count (instance_in job.now) }
    requires tasks_bound { (added + length job.now.tasks.now ≤ max_tasks) × (added + length job.now.files.now ≤ max_files) }
    requires k_lt_files { k < length job.now.files.now }
    requires stored { Stored (instance_in job.now) target.old (added + length job.now.tasks.now) (added + k) }
    ensures { Stored (instance_in job.now) target.new (added + length job.now.tasks.now) (added + k + 1) }
{
    let shift = added as u64;
    let maker = job.maker(k) as u64;
    let reader = job.reader(k) as u64;
    target.push_file(shift + maker, shift + reader, job.size(k), job.move_time(k));
}

// All files.
fn convert_files(job: &Job<'_>, added: usize, target: &mut Numbers)
    requires added_value { added ≡ added_count (instance_in job.now) }
    requires tasks_bound { (added + length job.now.tasks.now ≤ max_tasks) × (added + length job.now.files.now ≤ max_files) }
    requires stored { Stored (instance_in job.now) target.old (added + length job.now.tasks.now) added }
    ensures { Stored (instance_in job.now) target.new (added + length job.now.tasks.now) (added + length job.now.files.now) }
{
    for k in 0..job.files.len() {
        convert_file(job, added, k, target);
    }
}

// Leaves the converted job's numbers in the target, whatever it held. The board stays.
pub fn convert(job: &Job<'_>, added: usize, target: &mut Numbers)
    requires added_value { added ≡ added_count (instance_in job.now) }
    requires tasks_bound { (added + length job.now.tasks.now ≤ max_tasks) × (added + length job.now.files.now ≤ max_files) }
    ensures { instance_with job.now.board target.new ≡ converted (instance_in job.now) }
{
    target.clear();
    add_tasks(added, target);
    convert_tasks(job, added, target);
    convert_files(job, added, target);
}
