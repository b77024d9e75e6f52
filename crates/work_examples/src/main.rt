// Working memory of a task (Order 6): the lines of a sheet, timetables marked, plans made, and a sheet written back.
#![tactic(auto)]

mod lines;
mod marks;
mod plans;
mod sheet;

use std::io::Result;

fn main(rt: HostRuntime) -> Result<()> {
    lines::examples(&rt)?;
    marks::examples(&rt)?;
    plans::examples(&rt)?;
    sheet::examples(&rt)
}
