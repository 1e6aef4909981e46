//! Scripts for a replay, line by line.
#![tactic(auto)]

mod commands;
mod fates;
pub mod laws;
mod lines;
pub mod reader;
pub mod script;
mod texts;
mod words;

pub use reader::read_script;
pub use script::{Fate, Line, Ordinal, Script, ScriptError};
