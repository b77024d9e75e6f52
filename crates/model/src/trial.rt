// A trial of a planner.
use super::colour::Colour;

// A task on a colour at a start.
#[derive(Clone, Copy)]
pub struct Trial {
    pub task: usize,
    pub colour: Colour,
    pub start: u64,
}
