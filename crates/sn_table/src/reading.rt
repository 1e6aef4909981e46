// Reading the payloads of a journal as batches of changes.

ghost use Rattle.std.specs.Prelude.{◌≡◌, ◌↔◌, ◌<◌, ◌^◌, IsTrue, IfOk, IfErr, OnOk, All, MatchOption, List, ℕ, length};
ghost use Rattle.sn_journal.specs.Image.{front};
ghost use Rattle.sn_journal.specs.Reading.{AreIn};
ghost use Rattle.sn_row_map.specs.RowMaps.{IsTidy};
ghost use Rattle.sn_rows.specs.Kinds.{key_kind};
ghost use Rattle.sn_rows.specs.Spelling.{spelled};
ghost use Rattle.sn_table.specs.Batches.{owner_of_kind, IsOf, IsBatch, IsNoBatch};
ghost use Rattle.sn_table.specs.Logs.{HasKinds, HasOwned};
ghost use Rattle.sn_table.specs.Reading.{IsAdded, AreRead, IsAddError, IsReadError};
ghost use Rattle.sn_table.specs.declared.reading.Unread.TheVariants.{Memory};

use sn_journal::{Batches, Owner};
use sn_row_map::RowMap;
use sn_rows::{Change, RowError, RowKind};
use sn_string::OwnedList;
use std::alloc::{AllocError, Global};

/// Why payloads weren't read.
#[derive(Clone, Copy, Debug, PartialEq, Eq)]
pub(crate) enum Unread {
    Memory,
    /// The payload behind the gate at this place spells no batch.
    NoBatch { gate: u64 },
}

impl From<AllocError> for Unread {
    ghost from_gives = { λ _ e. e ≡ Memory };

    fn from(_: AllocError) -> Unread {
        Unread::Memory
    }
}

// Whose rows of this kind are.
fn owner_of_kind(kind: RowKind) -> Owner
    ensures { result ≡ owner_of_kind kind }
{
    match kind {
        RowKind::Store => Owner::Server,
        RowKind::Account => Owner::Server,
        RowKind::Generation => Owner::Server,
        RowKind::Item => Owner::Server,
        RowKind::Owner => Owner::Device,
        RowKind::Set => Owner::Device,
        RowKind::Local => Owner::Device,
    }
}

// Whether the change is of a row of this owner's.
fn is_of(owner: Owner, change: &Change) -> bool
    ensures { IsTrue result ↔ IsOf owner change.now }
{
    owner_of_kind(change.key().kind()) == owner
}

/// Whether all changes are of rows of this owner's.
pub fn are_of(owner: Owner, changes: &[Change]) -> bool
    ensures { IsTrue result ↔ All (IsOf owner) changes.now }
{
    'changes: for change in changes {
        if !is_of(owner, change) {
            return false;
        }
    }
    true
}

// The batch that a payload spells, if it does.
fn batch_of(
    alloc: Global,
    owner: Owner,
    payload: &[u8],
) -> Result<Option<OwnedList<Change>>, AllocError>
    ensures { IfOk result (λ found. MatchOption found (IsNoBatch owner payload.now) (λ changes. (payload.now ≡ spelled changes) × IsBatch owner changes)) }
{
    let changes = match sn_rows::read(alloc, payload) {
        Ok(changes) => changes,
        Err(RowError::Memory) => return Err(AllocError),
        Err(_) => return Ok(None),
    };
    if !are_of(owner, changes.as_slice()) {
        return Ok(None);
    }
    Ok(Some(changes))
}

// Adds the batch that a payload spells, behind the gate at this place.
fn add_batch(
    alloc: Global,
    owner: Owner,
    rows: &mut RowMap,
    gate: u64,
    payload: &[u8],
) -> Result<(), Unread>
    ensures added { OnOk result (IsAdded owner payload.now rows.old rows.new) }
    ensures tidy { IsTidy rows.old → IsTidy rows.new }
    ensures refused { IfErr result (IsAddError owner payload.now gate) }
{
    let Some(changes) = batch_of(alloc, owner, payload)? else {
        return Err(Unread::NoBatch { gate });
    };
    rows.add_all(changes.into_vec())?;
    Ok(())
}

/// The rows that batches leave, one after the other.
pub(crate) fn rows_of(alloc: Global, owner: Owner, batches: &Batches) -> Result<RowMap, Unread>
    ensures read { (payloads : List (List ℕ)) → AreIn batches.now payloads → IfOk result (AreRead owner payloads) }
    ensures kinds { IfOk result HasKinds }
    ensures owned { IfOk result (HasOwned owner) }
    ensures tidy { IfOk result IsTidy }
    ensures refused { (payloads : List (List ℕ)) → AreIn batches.now payloads → length (front owner payloads) < 2 ^ 64 → IfErr result (IsReadError owner payloads) }
{
    let mut rows = RowMap::new(alloc);
    let mut payloads = batches.payloads();
    let mut gate: u64 = 16;
    'payloads: loop {
        match payloads.next() {
            Some(payload) => {
                add_batch(alloc, owner, &mut rows, gate, payload)?;
                gate = gate.saturating_add(5).saturating_add(payload.len() as u64);
            }
            None => return Ok(rows),
        }
    }
}
