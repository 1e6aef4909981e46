//! The contents of notes: that of a plain text, and the copy that a conflict makes.
#![tactic(auto)]

mod copies;
mod notes;

pub use copies::conflict_copy;
pub use notes::note;
