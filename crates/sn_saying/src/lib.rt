//! The moves of the ideal account that a batch says, through changes of password: one of the server, and one of a device.
#![tactic(auto)]

mod accounts;
mod adopting;
mod joining;
mod laws;
mod reposting;
mod retiring;
mod sent;
mod serving;

pub use adopting::adopted;
pub use joining::joined;
pub use laws::said_once;
pub use retiring::retired;
pub use serving::{served, sync_served};
