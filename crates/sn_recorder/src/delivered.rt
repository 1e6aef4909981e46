//! What came of a request that was delivered late or again.

use sn_rows::Change;
use sn_string::OwnedList;

/// The bytes of its answer, which no device hears, and the batches that the server's store gained by it.
#[derive(Drop)]
pub struct Delivered {
    pub answer: OwnedList<u8>,
    pub batches: OwnedList<OwnedList<Change>>,
}
