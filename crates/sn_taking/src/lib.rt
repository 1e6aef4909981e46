//! What an answer to a sync makes of a device's rows.
#![tactic(auto)]

mod applying;
mod renaming;
mod retiring;
mod taken;
mod taking;
mod versions;

pub use applying::applied;
pub use taken::NotTaken;
