// What a planner's trials ask of the files, worked out once for a task, when it becomes ready, from the chains of each task's files.
#![tactic(auto)]

pub mod demand;
pub mod readiness;
pub mod table;
