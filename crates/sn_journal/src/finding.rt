// What the bytes of a disk stand for.
ghost use Rattle.std.specs.Prelude.{◌≡◌, ◌≤◌, ℕ, List, length, take, IfOk, IfErr};
ghost use Rattle.sn_journal.specs.Image.{IsImage, header_of};
ghost use Rattle.sn_journal.specs.Loading.{IsFound, IsNoImage};

use crate::beginning::{Beginning, Start, beginning_of};
use crate::reading::closed_gate;
use crate::{JournalError, Owner};

/// What stands in a file.
#[derive(Clone, Copy, Debug, PartialEq, Eq)]
pub(crate) enum Found {
    Unfinished(Start),
    /// So many batches, and a closed gate at this place.
    Batches { count: u64, gate: u64 },
    Foreign { place: u64 },
    Damaged { place: u64 },
}

pub(crate) fn found_in(bytes: &[u8], owner: Owner) -> Found
    ensures { IsFound owner bytes.now result }
{
    match beginning_of(bytes, owner) {
        Beginning::Unfinished(start) => Found::Unfinished(start),
        Beginning::Foreign { place } => Found::Foreign {
            place: place as u64,
        },
        Beginning::Header => behind_header(bytes, owner),
    }
}

// What stands behind a header.
fn behind_header(bytes: &[u8], _owner: Owner) -> Found
    requires long { 16 ≤ length bytes.now }
    requires header { take 16 bytes.now ≡ header_of _owner }
    ensures { IsFound _owner bytes.now result }
{
    match closed_gate(&bytes[16..]) {
        Ok((count, end)) => Found::Batches {
            count,
            gate: 16 + end as u64,
        },
        Err(broken) => Found::Damaged {
            place: 16 + broken.place as u64,
        },
    }
}

/// How many batches these bytes stand for, as loading would find them. It takes no memory and calls no disk.
pub fn batches_in(bytes: &[u8], owner: Owner) -> Result<u64, JournalError>
    ensures counted { IfOk result (λ count. (payloads : List (List ℕ)) × IsImage owner bytes.now payloads × (count ≡ length payloads)) }
    ensures refused { IfErr result (IsNoImage owner bytes.now) }
{
    match found_in(bytes, owner) {
        Found::Unfinished(_) => Ok(0),
        Found::Batches { count, .. } => Ok(count),
        Found::Foreign { place } => Err(JournalError::Foreign { place }),
        Found::Damaged { place } => Err(JournalError::Damaged { place }),
    }
}
