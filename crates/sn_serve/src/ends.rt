// How serving ends.
ghost use Rattle.std.specs.Prelude.{◌≡◌};
ghost use Rattle.sn_serve.specs.Refusals.{served_of};

use sn_rows::RowKind;
use sn_server::ServerError;

/// How serving ended.
#[derive(Clone, Copy, Debug, PartialEq, Eq)]
pub enum Served {
    /// As many requests were served as was asked.
    Reached,
    /// The shelf or the disk failed.
    DiskFault,
    /// The port failed.
    PortFault,
    /// The line that tells the port couldn't be written.
    WriteFault,
    /// The disk holds no server's store. The place is the first that differs from the header.
    Foreign { place: u64 },
    /// The store is damaged at this byte.
    Damaged { place: u64 },
    /// The rows of this kind aren't a server's.
    Rows { kind: RowKind },
    Memory,
}

/// What a store that isn't loaded makes of serving.
pub(crate) fn served_of(error: ServerError) -> Served
    ensures { result ≡ served_of error }
{
    match error {
        ServerError::Foreign { place } => Served::Foreign { place },
        ServerError::Damaged { place } => Served::Damaged { place },
        ServerError::Rows { kind } => Served::Rows { kind },
        ServerError::DiskFault => Served::DiskFault,
        ServerError::Memory => Served::Memory,
    }
}

/// How the connections ended.
#[derive(Clone, Copy, Debug, PartialEq, Eq)]
pub(crate) enum HostEnd {
    /// As many requests were served as was asked.
    Reached,
    /// No connection came.
    PortFault,
    /// The disk failed within a session.
    DiskFault,
    /// Memory was wanting within a session.
    Memory,
}
