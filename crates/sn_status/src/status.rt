// What a run answers.
ghost use Rattle.std.specs.Prelude.{◌≡◌};

use crate::refusal::Refusal;
use sn_device::Place;
use sn_rows::RowKind;
use sn_string::Text;

/// The outcome of a run. Each but the first has a line on standard error.
#[derive(Debug, Drop)]
pub enum Status {
    Done,
    Usage,
    Refused(Refusal),
    /// The shelf or a disk failed.
    DiskFault,
    /// The port or the link failed.
    LinkFault,
    ReadFault,
    WriteFault,
    Memory,
    /// A disk holds no store of the kind that the command wants, or a damaged one.
    Foreign(Unfit),
    /// The server's refusal, with its HTTP status.
    Server { status: u16, tag: Text },
    /// What came as an answer isn't one that may be used.
    BadAnswer(Place),
}

/// Why a disk's store isn't one to be used. None is want of memory.
#[derive(Clone, Copy, Debug, PartialEq, Eq)]
pub enum Unfit {
    /// The first place that differs from the header, or the end of a shorter file.
    Foreign { place: u64 },
    /// The place of the gate of the first batch that isn't whole or isn't one of rows.
    Damaged { place: u64 },
    /// The first kind whose rows don't fit together.
    Rows { kind: RowKind },
}

impl Status {
    ghost use Rattle.sn_status.specs.Lines.{code_of};

    /// The exit status of the program.
    pub fn code(&self) -> u8
        ensures { result ≡ code_of self.now }
    {
        match self {
            Status::Done => 0,
            Status::Usage => 2,
            Status::Refused(_) => 3,
            Status::DiskFault => 4,
            Status::LinkFault => 5,
            Status::ReadFault => 6,
            Status::WriteFault => 7,
            Status::Memory => 8,
            Status::Foreign(_) => 9,
            Status::Server { .. } => 10,
            Status::BadAnswer(_) => 11,
        }
    }
}
