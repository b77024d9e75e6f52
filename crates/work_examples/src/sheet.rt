// A sheet with W, and what was read of it written in the same forms: the same bytes.
use model::job::Job;
use model::layout::Numbers;
use std::io::Result;

// Prints the sheet of a job.
fn print_sheet(rt: &impl Print, job: &Job) -> Result<()> {
    let mut out = io::buffer();
    if instance::instance_size(job) <= out.len() {
        let n = instance::write(job, &mut out);
        rt.write_all(&out[..n])?;
    }
    Ok(())
}

// A sheet as it is handed in, and what was read of it.
fn show(rt: &impl Print, sheet: &[u8]) -> Result<()> {
    println!(rt; "a sheet:")?;
    rt.write_all(sheet)?;
    println!(rt; "written back:")?;
    let mut numbers = Numbers::new();
    let Ok(job) = instance::job_of(sheet, &mut numbers) else {
        return Ok(());
    };
    print_sheet(rt, &job)
}

pub fn examples(rt: &impl Print) -> Result<()> {
    show(
        rt,
        b"(board (blue 2 40) (red 1 999999999))\n(task 1 4 2 1)\n(task 2 0 5)\n(task 3 1000000000 0 1000000)\n(file 1 2 2 1)\n(file 2 3 0 1000000000)\n",
    )
}
