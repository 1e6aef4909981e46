//! The messages of the Standard File sync API, 20190520, both ways, with the stamps and tokens in them.
#![tactic(auto)]

pub mod answer;
pub mod answer_laws;
pub mod answer_reader;
pub mod answer_writer;
mod digits;
pub mod error;
pub mod item;
mod item_reader;
mod item_writer;
mod json_texts;
pub mod laws;
mod member_writer;
mod members;
pub mod request;
pub mod request_laws;
pub mod request_reader;
pub mod request_writer;
pub mod stamp;
pub mod token;
pub mod written_laws;

pub use answer::{Answer, Conflict, More};
pub use answer_reader::read_answer;
pub use answer_writer::write_answer;
pub use error::SyncError;
pub use item::{Body, Item};
pub use request::{Request, Route};
pub use request_reader::read_request;
pub use request_writer::write_request;
pub use stamp::{BadForm, Stamp};
pub use token::{token_read, token_text};
