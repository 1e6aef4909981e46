//! What the user sees of a device's items, and the rows that the user's edits make.
#![tactic(auto)]

mod drafting;
mod lines;
mod looking;

pub use drafting::{changes_to_delete, changes_to_edit, changes_to_put};
pub use lines::lines_of;
pub use looking::{held_sets, shown_text, standing_item};
