// The converted sheet, written into a lent buffer.
ghost use Rattle.std.specs.Prelude.{◌≡◌};
ghost use Rattle.rules.specs.InstanceText.{instance_text};
ghost use Rattle.rules.specs.Promises.{WellFormed};
ghost use Rattle.rules.specs.Conversion.{output, convert_on};
ghost use Rattle.model.specs.Jobs.{instance_in};
ghost use Rattle.convert_text.specs.Answers.{as_output};
ghost use Rattle.convert_text.specs.Converts.{Converts};

use conversion::added::added;
use conversion::job::convert;
use model::job::Job;
use model::layout::Numbers;
use rules::{Board, Refusal};

// Leaves the numbers of the converted job; refused if more tasks or files than a sheet can have would result.
pub fn convert_job(job: &Job, wide: &mut Numbers) -> Result<(), Refusal>
    ensures { Converts job.now.board (instance_in job.now) result wide.new }
{
    let more = added(job.tasks);
    if Board::MAX_TASKS < more + job.tasks.len() {
        return Err(Refusal::TooManyTasks);
    }
    if Board::MAX_FILES < more + job.files.len() {
        return Err(Refusal::TooManyFiles);
    }
    convert(job, more, wide);
    Ok(())
}

// Writes a job's sheet, if the buffer is long enough, and answers how many bytes that takes. One function for this and `write_plan` would
// take the size and a closure that writes, with clauses longer than either body.
fn write_sheet(job: &Job, out: &mut [u8]) -> Result<usize, Refusal>
    ensures { as_output result out.new ≡ output (instance_text (instance_in job.now)) out.old }
{
    let size = instance::instance_size(job);
    if out.len() < size {
        return Err(Refusal::Short(size as u64));
    }
    Ok(instance::write(job, out))
}

// The converter on the job of an accepted board sheet.
pub fn convert_instance(job: &Job, out: &mut [u8]) -> Result<usize, Refusal>
    requires { WellFormed (instance_in job.now) }
    ensures { as_output result out.new ≡ convert_on (instance_in job.now) out.old }
{
    let mut wide = Numbers::new();
    convert_job(job, &mut wide)?;
    write_sheet(&wide.job(job.board), out)
}
