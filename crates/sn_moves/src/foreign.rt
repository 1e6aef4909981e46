//! What an answer says of other accounts.

ghost use Rattle.std.specs.Prelude.{◌≡◌, ◌++◌, IfOk, OnOk};
ghost use Rattle.std.specs.List.{flat_map};
ghost use Rattle.sn_moves.specs.Foreign.{foreign_in, foreign_of};

use sn_string::OwnedList;
use sn_sync::{Answer, Conflict};
use std::alloc::{AllocError, Global};
use uuid::Uuid;

/// The uuids of new items that another account has, by an answer.
pub fn foreign_in(alloc: Global, given: &Answer) -> Result<OwnedList<Uuid>, AllocError>
    ensures { IfOk result (λ uuids. uuids ≡ foreign_in given.now) }
{
    match given {
        Answer::Sync { conflicts, .. } => foreign_among(alloc, conflicts.as_slice()),
        Answer::Account { .. } | Answer::Params(_) | Answer::Refused { .. } => Ok(OwnedList::new(
            alloc,
        )),
    }
}

// Those of the conflicts.
fn foreign_among(alloc: Global, conflicts: &[Conflict]) -> Result<OwnedList<Uuid>, AllocError>
    ensures { IfOk result (λ uuids. uuids ≡ flat_map foreign_of conflicts.now) }
{
    let mut uuids = OwnedList::new(alloc);
    'conflicts: for conflict in conflicts {
        push_foreign(&mut uuids, conflict)?;
    }
    Ok(uuids)
}

// Adds that of a conflict.
fn push_foreign(uuids: &mut OwnedList<Uuid>, conflict: &Conflict) -> Result<(), AllocError>
    ensures { OnOk result (uuids.new ≡ uuids.old ++ foreign_of conflict.now) }
{
    match conflict {
        Conflict::Uuid { unsaved } => uuids.push(unsaved.uuid),
        Conflict::Sync { .. } | Conflict::Content { .. } => Ok(()),
    }
}
