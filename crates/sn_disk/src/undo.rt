// What undoes a changing call of a disk in memory.
ghost use Rattle.std.specs.Prelude.{◌≡◌, take, drop, IfOk};
ghost use Rattle.sn_disk.specs.Record.{back_of, undone};

use std::alloc::{AllocError, Global};

/// What undoes a changing call. Of a write and a cut it has just the bytes that aren't in the file any more.
#[derive(Debug, Drop)]
pub(crate) enum Undo {
    /// So many bytes were written from this place on, over these.
    Write {
        at: u64,
        count: usize,
        over: Vec<u8>,
    },
    /// These were cut off behind this length.
    Cut {
        len: u64,
        tail: Vec<u8>,
    },
    /// There was a sync.
    Sync,
    /// The disk stopped, and read so before.
    Stop {
        before: Vec<u8>,
    },
}

/// The same again.
pub(crate) fn copied(alloc: Global, undo: &Undo) -> Result<Undo, AllocError>
    ensures { IfOk result (λ copy. back_of copy ≡ back_of undo.now) }
{
    match undo {
        Undo::Write { at, count, over } => Ok(Undo::Write {
            at: *at,
            count: *count,
            over: over.to_vec(alloc)?,
        }),
        Undo::Cut { len, tail } => Ok(Undo::Cut {
            len: *len,
            tail: tail.to_vec(alloc)?,
        }),
        Undo::Sync => Ok(Undo::Sync),
        Undo::Stop { before } => Ok(Undo::Stop {
            before: before.to_vec(alloc)?,
        }),
    }
}

/// The file before the call.
pub(crate) fn undone(alloc: Global, file: &[u8], undo: &Undo) -> Result<Vec<u8>, AllocError>
    ensures { IfOk result (λ before. before.items ≡ undone file.now (back_of undo.now)) }
{
    match undo {
        Undo::Write { at, count, over } => {
            let from = *at as usize;
            let mut before = front(file, from).to_vec(alloc)?;
            before.extend_from_slice(over)?;
            before.extend_from_slice(behind(behind(file, from), *count))?;
            Ok(before)
        }
        Undo::Cut { tail, .. } => {
            let mut before = file.to_vec(alloc)?;
            before.extend_from_slice(tail)?;
            Ok(before)
        }
        Undo::Sync => file.to_vec(alloc),
        Undo::Stop { before } => before.to_vec(alloc),
    }
}

/// At most so many bytes, from the start on.
pub(crate) fn front(bytes: &[u8], count: usize) -> &[u8]
    ensures { result.now ≡ take count bytes.now }
{
    &bytes[..bytes.len().min(count)]
}

/// What stands behind so many bytes.
pub(crate) fn behind(bytes: &[u8], count: usize) -> &[u8]
    ensures { result.now ≡ drop count bytes.now }
{
    &bytes[bytes.len().min(count)..]
}
