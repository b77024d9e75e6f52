// The converted sheet of a job, and what is left of a timetable of that sheet, each written into a lent buffer.
#![tactic(auto)]

mod convert;
mod strip;

pub use convert::convert_instance;
pub use strip::strip_paper;
