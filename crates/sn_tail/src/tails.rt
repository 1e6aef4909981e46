// The batches behind a place of a store.
ghost use Rattle.std.specs.Prelude.{◌≡◌, ◌++◌, [], ◌∷◌, List, ℕ, OnOk, IfOk, IfErr, MatchOption, MatchResult};
ghost use Rattle.sn_rows.specs.Spelling.{spelled};
ghost use Rattle.sn_rows.specs.declared.change.Change.{Change};
ghost use Rattle.sn_table.specs.Batches.{IsBatch, IsNoBatch, IsStore};
ghost use Rattle.sn_tail.specs.Places.{place_behind};
ghost use Rattle.sn_tail.specs.Tails.{IsNotAdded, IsTail, IsTailError};
ghost use Rattle.sn_tail.specs.declared.tails.TailError.TheVariants.{Memory};

use crate::gates::{from_place, next_batch};
use sn_journal::Owner;
use sn_rows::{Change, RowError};
use sn_string::OwnedList;
use sn_table::are_of;
use std::alloc::{AllocError, Global};
use thiserror::Error;

/// The batches behind a place of a store, and the place of the gate behind them.
#[derive(Drop)]
pub struct Tail {
    /// Each batch of changes, the oldest first.
    pub batches: OwnedList<OwnedList<Change>>,
    /// Where the next batch is to stand.
    pub gate: u64,
}

/// Why the batches behind a place weren't read.
#[derive(Clone, Copy, Debug, PartialEq, Eq, Error)]
pub enum TailError {
    /// The batch at this gate spells no changes of rows of the owner's.
    #[error("the batch at byte {gate} is damaged")]
    Damaged { gate: u64 },
    #[error("out of memory")]
    Memory,
}

impl From<AllocError> for TailError {
    ghost from_gives = { λ _ e. e ≡ Memory };

    fn from(_: AllocError) -> TailError {
        TailError::Memory
    }
}

/// Reads the batches that stand behind the gate at a place, up to the first closed gate. It reads no byte before the place.
///
/// The place is that of the gate behind some of the store's batches, as `first_place` and each `Tail` give it.
pub fn batches_behind(
    alloc: Global,
    owner: Owner,
    bytes: &[u8],
    place: u64,
) -> Result<Tail, TailError>
    // They are all batches behind those that end at the place, and the gate is that behind all. Only memory may be wanting.
    ensures behind { (before later : List (List Change)) → IsStore owner bytes.now (before ++ later) → place ≡ place_behind owner before
        → MatchResult result (λ tail. (tail.batches ≡ later) × (tail.gate ≡ place_behind owner (before ++ later))) (λ error. error ≡ TailError.Memory) }
    // And of any other bytes it reads what stands there.
    ensures read { IfOk result (λ tail. IsTail owner bytes.now place tail.batches tail.gate) }
    ensures refused { IfErr result (IsTailError owner bytes.now place) }
{
    read_behind(alloc, owner, bytes, place)
}

fn read_behind(alloc: Global, owner: Owner, bytes: &[u8], place: u64) -> Result<Tail, TailError>
    ensures read { IfOk result (λ tail. IsTail owner bytes.now place tail.batches tail.gate) }
    ensures refused { IfErr result (IsTailError owner bytes.now place) }
{
    let mut batches = OwnedList::new(alloc);
    let mut rest = from_place(bytes, place);
    let mut gate = place;
    'batches: while let Some((payload, after)) = next_batch(rest) {
        add_batch(alloc, owner, &mut batches, gate, payload)?;
        gate += 5 + payload.len() as u64;
        rest = after;
    }
    Ok(Tail { batches, gate })
}

// Adds the batch that a payload behind this gate spells.
fn add_batch(
    alloc: Global,
    owner: Owner,
    batches: &mut OwnedList<OwnedList<Change>>,
    gate: u64,
    payload: &[u8],
) -> Result<(), TailError>
    ensures added { OnOk result ((changes : List Change) × (batches.new ≡ batches.old ++ changes ∷ []) × (payload.now ≡ spelled changes) × IsBatch owner changes) }
    ensures refused { IfErr result (IsNotAdded owner payload.now gate) }
{
    let Some(changes) = batch_of(alloc, owner, payload)? else {
        return Err(TailError::Damaged { gate });
    };
    batches.push(changes)?;
    Ok(())
}

// The batch that a payload spells, if it does.
fn batch_of(
    alloc: Global,
    owner: Owner,
    payload: &[u8],
) -> Result<Option<OwnedList<Change>>, AllocError>
    ensures { IfOk result (λ found. MatchOption found (IsNoBatch owner payload.now) (λ changes. (payload.now ≡ spelled changes) × IsBatch owner changes)) }
{
    let changes = match sn_rows::read(alloc, payload) {
        Ok(changes) => changes,
        Err(RowError::Memory) => return Err(AllocError),
        Err(_) => return Ok(None),
    };
    if !are_of(owner, changes.as_slice()) {
        return Ok(None);
    }
    Ok(Some(changes))
}
