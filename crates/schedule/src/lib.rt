// The timetable's text: its due lines read into a schedule, and written from one.
#![tactic(auto)]

mod lines;
mod reader;
mod writer;

pub use reader::read;
pub use writer::{schedule_size, write};
