//! What `serde_json` reads in a text, over the text itself: no text is copied, and no map is made.
#![tactic(auto)]

mod error;
mod list;
mod node;
mod numbers;
mod reading;
mod values;

pub use error::JsonError;
pub use json::Scratch;
pub use list::Nodes;
pub use node::Node;
pub use reading::Document;
