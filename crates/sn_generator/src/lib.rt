//! Scripts for a replay, each made from a number.
#![tactic(auto)]

mod events;
mod generator;
mod puts;

pub use generator::generate;
