//! What is made of a number: a script, its report, and the summary of that.
#![tactic(auto)]

mod summing;

pub use summing::generated_summary;
