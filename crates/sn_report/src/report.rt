//! What a replay reports.

use sn_device::Place;
use sn_laws::Move;
use sn_status::ClientRefusal;
use sn_string::{OwnedList, Text};

/// How an event ended.
#[derive(Drop)]
pub enum Last {
    Done,
    /// A request or its answer was lost.
    Link,
    /// A request was answered with a status other than 200, and this tag.
    Server { status: u16, tag: Text },
    /// The device refused the call. Nothing was changed by it, but for what it sent before.
    Refused(ClientRefusal),
    /// What came as an answer is none, or fails a check.
    BadAnswer(Place),
    /// A late request was answered with this status. The answer is thrown away.
    Answer { status: u16 },
}

/// How many calls the record of a device's disk had after an event.
#[derive(Drop)]
pub struct DeviceMark {
    pub name: Text,
    pub mark: u64,
}

/// What one line of a script brought about.
#[derive(Drop)]
pub struct Event {
    /// The line's number, the first being 1.
    pub number: u64,
    /// Whether the line puts a new item, so that the edit among its moves makes a label.
    pub puts: bool,
    pub moves: OwnedList<Move>,
    /// Lines that are no moves: those that `show` prints.
    pub shown: OwnedList<Text>,
    pub last: Last,
    /// How many calls the record of the server's disk had after the event.
    pub server_mark: u64,
    /// And that of the device whose line it is; no other device's changed.
    pub device_mark: Option<DeviceMark>,
}

/// The events of a script's lines, without those of its settings.
#[derive(Drop)]
pub struct Report {
    pub events: OwnedList<Event>,
}
