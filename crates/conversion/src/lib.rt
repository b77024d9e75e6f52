// Order 7: the job without working memory that stands for a job with it, and what is left of a schedule of the converted job.
#![tactic(auto)]

pub mod added;
pub mod job;
pub mod strip;
