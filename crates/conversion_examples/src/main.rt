// The converter and the stripper (Order 7): sheets converted, timetables of converted sheets stripped, and each refusal.
#![tactic(auto)]

mod limits;
mod papers;
mod plans;
mod refusals;
mod sheets;
mod show;

use std::io::Result;

fn main(rt: HostRuntime) -> Result<()> {
    sheets::examples(&rt)?;
    limits::examples(&rt, &rt.stderr())?;
    plans::examples(&rt)?;
    papers::examples(&rt)?;
    refusals::examples(&rt)
}
