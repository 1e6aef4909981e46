//! Each request of a device's call is one that a server reads.
#![tactic(auto)]

mod laws;

pub use laws::{made_are_readable, made_stay_readable, readable_if_answered, runs_readable};
