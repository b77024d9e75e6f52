// The board, tick by tick: Order 3's simulator on a complete schedule, with Order 6's working memory in its ticks and in 17.
#![tactic(auto)]

pub mod answer;
pub mod faults;
pub mod state;
pub mod turns;
pub mod walk;
