//! What a device checks of an answer to a sync, and what becomes of a row that meets the server's version.
#![tactic(auto)]

mod checking;
mod error;
mod laws;
mod meeting;
mod strings;

pub use checking::check;
pub use error::CheckError;
pub use laws::one_meeting;
pub use meeting::{Meeting, meet};
pub use strings::names_item;
