// The claim of a schedule.

// Document 01's span, blue peak and red peak; the span is the makespan.
#[derive(Clone, Copy, PartialEq, Eq)]
pub struct Claim {
    pub span: u64,
    pub blue_peak: u64,
    pub red_peak: u64,
}
