// The earliest start of a task on a colour: document 01's starts 1 to 4, or 1 and 2 for a plain planner, from what is kept beside the partial schedule.
#![tactic(auto)]

pub mod memory;
pub mod start;
