//! Whole calls of a device that change a password, or bring a change to its end that was asked for, as steps
//! of the world.
#![tactic(auto)]

mod laws;

pub use laws::{every_sync_ends, every_sync_goes, passwds_end, passwds_go};
