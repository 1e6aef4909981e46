//! HTTP/1.1 at both ends (RFC 9112): the first message of what a source has left, whatever the cutting of its reads;
//! answers and requests written, and an answer read.
#![tactic(auto)]

mod answer;
mod answer_head;
mod block;
mod carry;
mod fields;
mod framing;
mod head;
mod laws;
mod message;
mod options;
mod request;
mod trigger;

pub use answer::{NoAnswer, WriteFault, read_answer, write_answer};
pub use carry::Carry;
pub use laws::{
    answer_reads_back, no_message_where_check, one_message, one_status, request_reads_back,
};
pub use message::{Incoming, Message, read_message};
pub use request::write_request;
