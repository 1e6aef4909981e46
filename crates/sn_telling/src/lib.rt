//! The moves that a call says, by the batches and the exchanges that it left to be told.
#![tactic(auto)]

mod beginning;
mod calling;
mod committing;
mod doing;
mod gaining;
mod known;
mod laws;
mod reading;
mod routing;
mod steps;
mod telling;

pub use calling::Calling;
pub use known::Known;
pub use laws::{agains_tell, calls_tell};
pub use telling::{Told, call_moves, late_moves};
