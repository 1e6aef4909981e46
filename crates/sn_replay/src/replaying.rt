//! What a replay goes by, from line to line.

use crate::kept::Requests;
use crate::mirrors::Mirrors;
use sn_events::Ends;
use sn_report::{Event, Labels};
use sn_row_map::RowMap;
use sn_string::{OwnedList, Text};

/// What was seen of both ends so far: the labels of items; the devices that have begun, in the order of their first lines; the rows
/// of the server and of each device once more; and the requests that were made.
#[derive(Drop)]
pub(crate) struct Seen {
    pub(crate) labels: Labels,
    pub(crate) names: OwnedList<Text>,
    pub(crate) server: RowMap,
    pub(crate) devices: Mirrors,
    pub(crate) requests: Requests,
}

/// Both ends, and what was seen of them.
#[derive(Drop)]
pub(crate) struct Replaying {
    pub(crate) ends: Ends,
    pub(crate) seen: Seen,
}

/// The event of a line, and the replay behind it.
#[derive(Drop)]
pub(crate) struct LineTold {
    pub(crate) replaying: Replaying,
    pub(crate) event: Event,
}
