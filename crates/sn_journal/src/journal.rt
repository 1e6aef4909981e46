// The journal and its one change.
ghost use Rattle.std.specs.Prelude.{◌≡◌, ◌+◌, ◌<◌, ◌≤◌, ◌++◌, [], ◌∷◌, List, ℕ, length, IfOk, IfErr, OnOk};
ghost use Rattle.sn_journal.specs.Image.{counted, most_payload};

use crate::Owner;
use crate::reading::MOST_PAYLOAD;
use sn_disk::{Disk, MemDisk, Stop, write_durably};
use std::alloc::{AllocError, Global};

/// An open journal: its disk, the place of its closed gate, and how many batches stand before it.
#[derive(Drop)]
pub struct Journal<D: Disk> {
    alloc: Global,
    disk: D,
    owner: Owner,
    gate: u64,
    count: u64,
    ghost within: { D.told → gate < length (D.seen disk) },
}

/// Why a batch wasn't appended.
#[derive(Drop)]
pub enum AppendError<D: Disk> {
    /// The payload has this many bytes, more than 2^30. The journal is as it was.
    TooLarge(Journal<D>, u64),
    /// The journal is as it was.
    Memory(Journal<D>),
    /// The disk is to be loaded again: it has the batches from before, or those with the new one.
    DiskFault(D),
}

impl<D: Disk> Journal<D> {
    ghost use Rattle.sn_disk.specs.Disk.{LeavesOnly, Counts};
    ghost use Rattle.sn_journal.specs.Image.{IsBeforeOrAfter};
    ghost use Rattle.sn_journal.specs.AtRest.{HasDurably, disk_of, owner_of, disk_after};
    ghost use Rattle.sn_journal.specs.Append.{IsRefusal};

    /// Its disk.
    pub fn disk(&self) -> &D
        ensures { result.now ≡ disk_of self.now }
    {
        &self.disk
    }

    /// Gives the disk back. Nothing is in flight.
    pub fn close(self) -> D
        ensures { result ≡ disk_of self }
    {
        self.disk
    }

    /// How many batches it has.
    pub fn count(&self) -> u64
        ensures { (payloads : List (List ℕ)) → HasDurably self.now payloads → result ≡ length payloads }
    {
        self.count
    }

    pub(crate) fn opened(alloc: Global, disk: D, owner: Owner, gate: u64, count: u64) -> Journal<D>
        requires { D.told → gate < length (D.seen disk) }
        ensures disk { result.disk ≡ disk }
        ensures owner { result.owner ≡ owner }
        ensures gate { result.gate ≡ gate }
        ensures count { result.count ≡ count }
    {
        Journal {
            alloc,
            disk,
            owner,
            gate,
            count,
        }
    }

    /// Adds a batch behind the last one.
    pub fn append(self, payload: &[u8]) -> Result<Journal<D>, AppendError<D>>
        // At `Ok` each crash leaves the batches with the new one.
        ensures done { D.told → (payloads : List (List ℕ)) → HasDurably self payloads →
            IfOk result (λ journal. HasDurably journal (payloads ++ payload.now ∷ [])) }
        ensures owner { IfOk result (λ journal. owner_of journal ≡ owner_of self) }

        // A crash at any moment leaves the batches from before, or those with the new one.
        ensures any_moment { D.told → (payloads : List (List ℕ)) → HasDurably self payloads →
            LeavesOnly D.moment D.left_since (disk_of self) (disk_after result) (IsBeforeOrAfter (owner_of self) payloads payload.now) }

        ensures refused { IfErr result (IsRefusal self (length payload.now)) }
        ensures large { most_payload < length payload.now → result ≡ Err (AppendError.TooLarge self (length payload.now)) }
        // Four changing calls: the batch behind its gate, a sync, the gate, a sync.
        ensures calls { D.told → Counts 4 (D.moment (disk_of self)) (D.moment (disk_after result)) result }

        ensures grows { D.grows (disk_of self) (disk_after result) }
        ensures later { D.fault_count (disk_of self) ≤ D.fault_count (disk_after result) }
        ensures quiet { OnOk result (D.fault_count (disk_after result) ≡ D.fault_count (disk_of self)) }
    {
        if payload.len() > MOST_PAYLOAD {
            let size = payload.len() as u64;
            return Err(AppendError::TooLarge(self, size));
        }
        let Ok(behind) = behind_gate(self.alloc, payload) else {
            return Err(AppendError::Memory(self));
        };
        let Journal {
            alloc,
            mut disk,
            owner,
            gate,
            count,
        } = self;
        if write_durably(&mut disk, gate.saturating_add(1), &behind).is_err() {
            return Err(AppendError::DiskFault(disk));
        }
        if write_durably(&mut disk, gate, &[1]).is_err() {
            return Err(AppendError::DiskFault(disk));
        }
        Ok(Journal {
            alloc,
            disk,
            owner,
            gate: gate.saturating_add(payload.len() as u64 + 5),
            count: count.saturating_add(1),
        })
    }
}

impl Journal<MemDisk> {
    ghost use Rattle.sn_disk.specs.MemDisk.{HasStopSet};
    ghost use Rattle.sn_journal.specs.AtRest.{HasDurably, disk_of, owner_of};

    /// Sets whether and when its disk is to stop. Bytes, record and batches stay as they are.
    pub fn set_stop(&mut self, stop: Stop)
        ensures set { HasStopSet stop (disk_of self.old) (disk_of self.new) }
        ensures owner { owner_of self.new ≡ owner_of self.old }
        ensures durably { (payloads : List (List ℕ)) → HasDurably self.old payloads → HasDurably self.new payloads }
    {
        self.disk.set_stop(stop);
    }
}

// What stands behind the gate: the length, the payload and the next gate, closed.
#[tactic(auto, unfolding(crate::specs::Image::counted))]
fn behind_gate(alloc: Global, payload: &[u8]) -> Result<Vec<u8>, AllocError>
    requires { length payload.now ≤ most_payload }
    ensures { IfOk result (λ bytes. bytes.items ≡ counted payload.now ++ 0 ∷ []) }
{
    let mut bytes = Vec::with_capacity(alloc, payload.len() + 5)?;
    bytes.extend_from_slice(&(payload.len() as u32).to_be_bytes())?;
    bytes.extend_from_slice(payload)?;
    bytes.push(0)?;
    Ok(bytes)
}
