//! What a change of password does to one item of a device, and whether a change may begin.
#![tactic(auto)]

mod carrying;
mod error;
mod laws;
mod rekeying;
mod rewrapping;

pub use carrying::{is_finished, is_of_other};
pub use error::{RekeyError, Running};
pub use laws::{closed_stays, open_or_not, same_content, version_stays};
pub use rekeying::rekey_item;
pub use rewrapping::{rewrap, rewrap_held, rewrap_older};
