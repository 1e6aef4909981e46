//! Rows on a journal: a batch of changes whole or not at all.
#![tactic(auto)]

mod committed;
mod error;
mod laws;
mod loading;
mod log;
mod opening;
mod reading;
mod table;

pub use committed::{CommitError, Committed};
pub use error::TableError;
pub use laws::{each_is_whole_or_nothing, one_store};
pub use loading::{batches_in, load};
pub use log::Log;
pub use opening::load_log;
pub use reading::are_of;
pub use table::Table;
