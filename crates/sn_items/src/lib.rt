//! Sealing and opening texts as 003 strings, and items as two of them, and the words that sealing draws.
#![tactic(auto)]

mod error;
mod hash;
mod items;
mod laws;
mod objects;
mod opening;
mod sealed;
mod sealing;
mod utf8;
mod words;

pub use error::ItemError;
pub use items::{halves, open_item, seal_item};
pub use laws::{one_content, one_text, sealed_item_opens, sealed_opens};
pub use objects::is_object;
pub use opening::open_text;
pub use sealed::{Sealed, Which};
pub use sealing::{seal_owned_text, seal_text};
pub use utf8::utf8_text;
pub use words::Words;
