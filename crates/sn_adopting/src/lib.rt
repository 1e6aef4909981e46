//! The rows of a change of password: whether it may begin, and a set that is asked for, adopted or dropped.
#![tactic(auto)]

mod beginning;
mod rekeying;

pub use beginning::may_begin;
pub use rekeying::{adopting, asking, forgetting};
