// What the programs have in common: reading texts, printing answers, and saying what failed.
#![tactic(auto)]

mod answers;
mod converter;
mod errors;
mod escape;
mod input;
mod planners;

pub use answers::{
    print_marks, print_number, print_numbers, print_text, print_text_mark, print_verdict,
    show_marks, show_numbers, show_plan, show_verdict, written_text,
};
pub use converter::{convert, strip};
pub use errors::report;
pub use escape::write_escaped;
pub use frames::Planner;
pub use input::{argument_count, read_argument, read_descriptor, read_file, read_named};
pub use planners::plan;
