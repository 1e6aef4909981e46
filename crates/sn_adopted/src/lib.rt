//! A device's commits of a change of password, by its own steps, as moves of the ideal account.
#![tactic(auto)]

pub mod laws;
