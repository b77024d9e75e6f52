// The simulator called on the course example of document 01 and on papers near it (Order 3): each call, and its answer in plain forms.
#![tactic(auto)]

mod course;
mod ends;
mod faults;
mod past;
mod relays;
mod show;
mod state;
mod texts;
mod work;

use std::io::Result;

fn main(rt: HostRuntime) -> Result<()> {
    println!(rt;
        "of each call: steps already made and steps to make; how it ends, steps made in all, time, task on each processor, where each file is held"
    )?;
    course::examples(&rt)?;
    past::examples(&rt)?;
    faults::examples(&rt)?;
    texts::examples(&rt)?;
    ends::examples(&rt)?;
    relays::examples(&rt)?;
    work::examples(&rt)
}
