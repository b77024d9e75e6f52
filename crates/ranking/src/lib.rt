// HEFT's list of tasks: the order in which a round tries them.
#![tactic(auto)]

pub mod list;
pub mod weight;
