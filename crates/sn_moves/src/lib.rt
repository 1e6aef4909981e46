//! The moves of the ideal account that a batch says: one of the server, and one of a device.
#![tactic(auto)]

mod committing;
pub mod done;
mod drafts;
mod foreign;
mod laws;
mod serving;

pub use committing::moves_of;
pub use done::Done;
pub use foreign::foreign_in;
pub use laws::{says_answered, says_computed, says_one, says_plainly};
pub use serving::{accepts_in, moves_for, registers_in};
