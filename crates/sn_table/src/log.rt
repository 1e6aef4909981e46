// The log, and its one change.

ghost use Rattle.std.specs.Prelude.{◌≡◌, ◌⊎◌, ◌+◌, ◌*◌, ◌<◌, ◌≤◌, ◌++◌, [], ◌∷◌, List, ℕ, All, length, IfOk, IfErr, OnOk};
ghost use Rattle.sn_journal.specs.Image.{most_payload};
ghost use Rattle.sn_rows.specs.Spelling.{spelled, AreInForm};
ghost use Rattle.sn_rows.specs.declared.change.Change.{Change};

use crate::{CommitError, Committed};
use sn_disk::{Disk, MemDisk, Stop};
use sn_journal::{AppendError, Journal};
use sn_rows::Change;
use std::alloc::Global;

/// An open log of batches of changes. Whoever has it keeps the rows that the batches leave.
#[derive(Drop)]
pub struct Log<D: Disk> {
    alloc: Global,
    journal: Journal<D>,
}

impl<D: Disk> Log<D> {
    ghost use Rattle.sn_disk.specs.Disk.{LeavesOnly};
    ghost use Rattle.sn_io.specs.Causes.{Rose};
    ghost use Rattle.sn_table.specs.Batches.{IsOf, IsAllOrNothing};
    ghost use Rattle.sn_table.specs.Committing.{IsCause, IsRefused, IfDone, IfRefused, IfBroken, disk_after};
    ghost use Rattle.sn_table.specs.Logs.{StandsFor, log_disk, log_owner};

    pub(crate) fn opened(alloc: Global, journal: Journal<D>) -> Log<D>
        ensures { result ≡ record { alloc = alloc; journal = journal } }
    {
        Log { alloc, journal }
    }

    /// Its disk.
    pub fn disk(&self) -> &D
        ensures { result.now ≡ log_disk self.now }
    {
        self.journal.disk()
    }

    /// Gives the disk back. Nothing is in flight.
    pub fn close(self) -> D
        ensures { result ≡ log_disk self }
    {
        self.journal.close()
    }

    /// How many batches it has.
    pub fn count(&self) -> u64
        ensures { (batches : List (List Change)) → StandsFor self.now batches → result ≡ length batches }
    {
        self.journal.count()
    }

    /// Writes a batch of changes, whole or not at all, also in a crash. They are of rows of the owner's.
    pub fn commit(self, changes: &[Change]) -> Committed<Log<D>, D>
        requires { All (IsOf (log_owner self)) changes.now }
        // At `Done` each crash leaves the batches with the new one.
        ensures done { D.told → (batches : List (List Change)) → StandsFor self batches → IfDone result (λ log. StandsFor log (batches ++ changes.now ∷ [])) }
        ensures owner { IfDone result (λ log. log_owner log ≡ log_owner self) }

        // A crash at any moment leaves the batches from before, or those with the whole new one, and so does one now.
        ensures any_moment { D.told → (batches : List (List Change)) → StandsFor self batches →
            LeavesOnly D.moment D.left_since (log_disk self) (disk_after log_disk result) (IsAllOrNothing (log_owner self) batches changes.now) }
        ensures crash { D.told → (batches : List (List Change)) → StandsFor self batches →
            (c : List ℕ) → D.may_leave (disk_after log_disk result) c → IsAllOrNothing (log_owner self) batches changes.now c }

        // A refused batch leaves all as it was.
        ensures refused { IfRefused result (λ log error. (log ≡ self) × IsCause changes.now error) }
        ensures large { most_payload < length (spelled changes.now) → IsRefused result }

        // Four changing calls.
        ensures four { D.told → IfDone result (λ log. D.moment (log_disk log) ≡ D.moment (log_disk self) + 4) }
        ensures most { D.told → D.moment (disk_after log_disk result) ≤ D.moment (log_disk self) + 4 }

        ensures broken { IfBroken result (λ disk. Rose (D.fault_count (log_disk self)) (D.fault_count disk)) }
        ensures grows { D.grows (log_disk self) (disk_after log_disk result) }
        ensures later { D.fault_count (log_disk self) ≤ D.fault_count (disk_after log_disk result) }
        ensures quiet { IfDone result (λ log. D.fault_count (log_disk log) ≡ D.fault_count (log_disk self)) }
    {
        let Ok(payload) = sn_rows::write(self.alloc, changes) else {
            return Committed::Refused(self, CommitError::Memory);
        };
        let Log { alloc, journal } = self;
        match journal.append(&payload) {
            Ok(journal) => Committed::Done(Log::opened(alloc, journal)),
            Err(AppendError::TooLarge(journal, size)) => {
                let log = Log::opened(alloc, journal);
                Committed::Refused(log, CommitError::TooLarge { size })
            }
            Err(AppendError::Memory(journal)) => {
                Committed::Refused(Log::opened(alloc, journal), CommitError::Memory)
            }
            Err(AppendError::DiskFault(disk)) => Committed::Broken(disk),
        }
    }
}

impl Log<MemDisk> {
    ghost use Rattle.sn_disk.specs.MemDisk.{HasStopSet};
    ghost use Rattle.sn_table.specs.Logs.{StandsFor, log_disk, log_owner};

    /// Sets whether and when its disk is to stop. Bytes, record and batches stay as they are.
    pub fn set_stop(&mut self, stop: Stop)
        ensures set { HasStopSet stop (log_disk self.old) (log_disk self.new) }
        ensures owner { log_owner self.new ≡ log_owner self.old }
        ensures stands { (batches : List (List Change)) → StandsFor self.old batches → StandsFor self.new batches }
    {
        self.journal.set_stop(stop);
    }
}
