// The public calls. None has a `requires`: any bytes may be handed in. Each begins with the same two lines: one function for them would lend the
// job to a closure, and its clauses would be longer.
#![tactic(auto)]

mod converter;
mod marker;
mod planners;
mod simulation;

pub use converter::{convert, strip};
pub use marker::{fault_line, mark};
pub use model::claim::Claim;
pub use plan_text::{Answer, numbers_of};
pub use planners::{Planner, plan};
pub use rules::{Fault, Refusal};
pub use simulation::simulate;
pub use simulator::answer::{Progress, Simulation, TickFault};
