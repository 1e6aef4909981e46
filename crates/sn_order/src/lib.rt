//! In which order a call of a device made its commits and its requests, by the changes of the ones and the routes of the others.
#![tactic(auto)]

pub mod kind;
mod laws;
mod order;

pub use kind::{Kind, kind_of};
pub use laws::{kinds_tell, runs_in_order};
pub use order::{comes_first, is_sync};
