// The text layer: lines, numerals and forms, read from lent bytes and written to lent bytes.
#![tactic(auto)]

mod forms;
mod lines;
mod numerals;
mod sinks;

pub use forms::{Found, line_by};
pub use lines::{Taken, line_at};
pub use numerals::{number_size, write_number};
pub use sinks::{Count, Page, Sink};
