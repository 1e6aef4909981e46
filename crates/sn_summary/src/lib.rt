//! Summaries of the reports of replays, in five numbers.
#![tactic(auto)]

mod drafts;
mod live;
pub mod summary;
mod walk;

pub use summary::{Summary, summary_of, summary_text};
