// One round of a planner: which task it places next, on which colour and when, and the trials that this took.
#![tactic(auto)]

pub mod round;
pub mod trial;
pub mod trials;
