//! A journal of batches on a disk. A batch counts once its gate is open, and a crash at any moment leaves the
//! batches from before or those with the new one.
#![tactic(auto)]

mod batches;
mod beginning;
mod error;
mod finding;
mod journal;
mod laws;
mod loading;
mod making;
mod owner;
mod reading;

pub use batches::Batches;
pub use error::JournalError;
pub use finding::batches_in;
pub use journal::{AppendError, Journal};
pub use laws::{one_finding, same_after_crashed_loads};
pub use loading::load;
pub use owner::Owner;
pub use reading::{MOST_PAYLOAD, Payloads};
