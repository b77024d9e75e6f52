// The calls of `frames` for C and Rust: a static library, declared in include/frames.h.
#![tactic(auto)]

mod exports;
