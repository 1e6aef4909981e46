//! The statuses in which a run of the program `sn` ends, and the line on standard error that tells each.
#![tactic(auto)]

mod client_lines;
mod lines;
mod refusal;
mod status;

pub use client_lines::{client_line, place_line};
pub use lines::tell;
pub use refusal::{ClientRefusal, FormRefusal, ItemRefusal, Refusal, form_refusal, item_refusal};
pub use status::{Status, Unfit};
