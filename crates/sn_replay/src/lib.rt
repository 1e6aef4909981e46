//! A replay of scripts over both ends in memory: each line that reports is an event, with the moves that it says.
#![tactic(auto)]

mod beginning;
mod calls;
mod came;
pub mod error;
mod kept;
mod labelled;
mod lasts;
mod late;
pub mod laws;
mod lines;
mod losses;
mod mirrors;
mod names;
mod new_set;
mod replaying;
pub mod run;
mod seen;
mod settings;
mod showing;
mod told;

pub use error::ReplayError;
pub use run::replay;
