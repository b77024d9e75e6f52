// The validity of a complete schedule: refusals 15 to 18 of document 01.
#![tactic(auto)]

pub mod exclusion;
pub mod judgement;
pub mod memory;
pub mod timing;
