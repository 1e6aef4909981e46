//! What was added to a store behind a place of it, and what a store stood for at a moment of its disk's record.
#![tactic(auto)]

mod gates;
mod laws;
mod marks;
mod shelf_laws;
mod tails;

pub use gates::{first_place, place_of_end};
pub use laws::{
    decides, has_one_file, is_one_list, log_stands, record_grows, stands_now, stands_then,
    table_stands,
};
pub use marks::{mark_of, tail_of};
pub use shelf_laws::{reads_its_disk, reads_once, reads_then, slots_grow};
pub use tails::{Tail, TailError, batches_behind};
