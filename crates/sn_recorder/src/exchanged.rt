//! What is recorded of an exchange.

use sn_rows::Change;
use sn_string::OwnedList;

/// An exchange: the bytes that were asked, those that came back, where any came, and the batches that the server's store gained
/// by it.
#[derive(Drop)]
pub struct Exchanged {
    pub request: OwnedList<u8>,
    pub answer: Option<OwnedList<u8>>,
    pub batches: OwnedList<OwnedList<Change>>,
}
