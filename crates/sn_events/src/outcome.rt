//! What an event gives.

use crate::ends::Ends;
use sn_device::ClientError;
use sn_recorder::Exchanged;
use sn_rows::Change;
use sn_string::OwnedList;

/// The ends before the first event, and the changes of the server's first commit.
#[derive(Drop)]
pub struct Begun {
    pub ends: Ends,
    pub changes: OwnedList<Change>,
}

/// The ends behind a call, what it gave or why it was refused, and what is to be told of it: the batches that the device's store
/// gained, and the exchanges.
#[derive(Drop)]
pub struct Outcome<T> {
    pub ends: Ends,
    pub answer: Result<T, ClientError>,
    pub batches: OwnedList<OwnedList<Change>>,
    pub exchanged: OwnedList<Exchanged>,
}

/// The ends behind a request that came late or again, the batches that the server's store gained, and the status of the answer,
/// which no device heard.
#[derive(Drop)]
pub struct Again {
    pub ends: Ends,
    pub status: u16,
    pub batches: OwnedList<OwnedList<Change>>,
}
