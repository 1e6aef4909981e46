//! Disks: what a read gives, what a crash now may leave, and what a crash since a moment might have left.
//! A disk in memory keeps a record of its changing calls, fails where it is told to, and can stop in a call
//! with an image of the caller's choice.
#![tactic(auto)]

mod calls;
mod disk;
mod durable;
mod history;
mod images;
mod laws;
mod mem_shelf;
mod memory;
mod shelf;
mod undo;

pub use disk::Disk;
pub use durable::write_durably;
pub use images::{CrashImage, Stop};
pub use laws::{past_stays, read_after_any_moment, stops_in_its_call};
pub use mem_shelf::MemShelf;
pub use memory::MemDisk;
pub use shelf::Shelf;
