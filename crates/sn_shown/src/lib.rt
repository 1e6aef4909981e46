//! The lines that show the state of a replay, from the rows of both ends.
#![tactic(auto)]

mod account_lines;
mod by_label;
mod closed_lines;
mod device_lines;
mod draft_lines;
pub mod ends;
mod held;
mod holding;
mod item_lines;
pub mod laws;
mod numbers;
mod opening;
mod rows;
pub mod showing;

pub use ends::Devices;
pub use showing::show;
