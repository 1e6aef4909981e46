//! The outside as the program sees it: where bytes come from, where they go, and where random words come from.
//! A call fails only where its object's count of faults rises.
#![tactic(auto)]

mod faults;
mod memory;
mod outside;
mod whole;

pub use faults::{Failed, FaultPlan};
pub use memory::{MemSeeds, MemSink, MemSource};
pub use outside::{Seeds, Sink, Source};
pub use whole::{ReadError, read_all, write_all};
