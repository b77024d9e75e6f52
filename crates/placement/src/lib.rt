// One task placed: both memories' staircases, its processor, its run and the moves of the files that it reads.
#![tactic(auto)]

pub mod memory;
pub mod moves;
pub mod processor;
pub mod task;
