// The board sheet: read into an instance, or refused with its fault and the number of the line; and written from an instance.
#![tactic(auto)]

mod build;
mod line;
mod sheet;
mod writer;

pub use sheet::{job_of, read};
pub use writer::{instance_size, write};
