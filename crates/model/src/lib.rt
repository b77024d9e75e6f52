// The instance and the schedule in the code; the two colours, and what a file costs between them; what the memories hold; the makespan.
#![tactic(auto)]

pub mod claim;
pub mod colour;
pub mod crossing;
pub mod finishes;
pub mod job;
pub mod layout;
pub mod residency;
pub mod span;
pub mod tick;
pub mod timetable;
pub mod totals;
pub mod trial;
