//! How a call ends.

ghost use Rattle.std.specs.Prelude.{◌≡◌};
ghost use Rattle.sn_calls.specs.Parts.{end_of};

use sn_client::DeviceError;
use sn_device::{ClientError, Listed};
use sn_rows::RowKind;
use sn_string::OwnedList;
use uuid::Uuid;

/// What a call gives that is answered.
#[derive(Drop)]
pub enum Answered {
    Nothing,
    /// That of the item that was put.
    Uuid(Uuid),
    /// A content.
    Text(String),
    /// A line of each item, by rising local number.
    Lines(OwnedList<Listed>),
}

/// How a call ended.
#[derive(Drop)]
pub enum CallEnd {
    /// It is answered, and all that it changed is kept, also in a crash.
    Answered(Answered),
    /// The device refused it. What it had committed until then is kept.
    Refused(ClientError),
    /// The disk holds no device's store. The place is the first that differs from the header.
    Foreign { place: u64 },
    /// The store is damaged at this byte.
    Damaged { place: u64 },
    /// The rows of this kind aren't a device's.
    Rows { kind: RowKind },
    /// The shelf or the disk failed. Of a commit in which it failed it has all or nothing.
    DiskFault,
    /// The link couldn't be aimed.
    LinkFault,
    /// The store wasn't loaded or the link not aimed, for want of memory.
    Memory,
}

/// What a store that isn't loaded makes of a call.
pub(crate) fn end_of(error: DeviceError) -> CallEnd
    ensures { result ≡ end_of error }
{
    match error {
        DeviceError::Foreign { place } => CallEnd::Foreign { place },
        DeviceError::Damaged { place } => CallEnd::Damaged { place },
        DeviceError::Rows { kind } => CallEnd::Rows { kind },
        DeviceError::DiskFault => CallEnd::DiskFault,
        DeviceError::Memory => CallEnd::Memory,
    }
}
