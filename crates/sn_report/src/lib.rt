//! Reports of a replay, and their text.
#![tactic(auto)]

mod ends;
mod labels;
mod moves;
pub mod report;
mod sets;
mod showing;
mod writing;

pub use labels::Labels;
pub use moves::make_label;
pub use report::{DeviceMark, Event, Last, Report};
pub use showing::{account_line, closed_line, device_line, draft_line, item_line, no_account_line};
pub use writing::report_text;
