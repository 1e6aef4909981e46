//! The key sets of a device, what it opens with them, and the sealing of a content for its rows.
#![tactic(auto)]

mod laws;
mod sealing;
mod sets;

pub use laws::{later_again, one_held, opened_is_short, sealed_fits};
pub use sealing::seal_strings;
pub use sets::{Sets, sealed_strings};
