//! Key sets from passwords (encryption protocol 003): the salt, the three keys, and what a server keeps.
#![tactic(auto)]

pub mod check;
pub mod derivation;
pub mod salt;

pub use check::check_of;
pub use derivation::derive;
pub use salt::{salt_of, salt_text};
