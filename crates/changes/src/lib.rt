// A memory's rises and falls as numbers in time order, and the running total over them: document 02, Order 8.
#![tactic(auto)]

pub mod change;
pub mod listing;
pub mod totals;
