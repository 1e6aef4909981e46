//! A server: its log and its state, and the one way in which it changes.

ghost use Rattle.std.specs.Prelude.{◌≡◌};
ghost use Rattle.sn_account.specs.States.{IsUnmarked};
ghost use Rattle.sn_journal.specs.declared.owner.Owner.TheVariants.{Server as ServerOwner};
ghost use Rattle.sn_table.specs.Logs.{log_owner};

use sn_account::State;
use sn_disk::{Disk, MemDisk, Stop};
use sn_journal::Owner;
use sn_rows::Change;
use sn_table::{CommitError, Committed, Log};
use std::alloc::Global;
use std::mem;

/// A server on a disk. Each of its rows stands in memory once.
#[derive(Drop)]
pub struct Server<D: Disk> {
    pub(crate) alloc: Global,
    pub(crate) log: Log<D>,
    pub(crate) state: State,
    pub(crate) ghost owner: { log_owner log ≡ ServerOwner },
    pub(crate) ghost unmarked: { IsUnmarked state },
}

impl<D: Disk> Server<D> {
    ghost use Rattle.std.specs.Prelude.{◌+◌, ◌*◌, ◌≤◌, ◌∷◌, [], List, ℕ, All, length};
    ghost use Rattle.sn_disk.specs.Disk.{LeavesOnly};
    ghost use Rattle.sn_io.specs.Causes.{Rose};
    ghost use Rattle.sn_rows.specs.Table.{rows_after};
    ghost use Rattle.sn_table.specs.Batches.{IsAllOrNothing, IsOf};
    ghost use Rattle.sn_table.specs.Committing.{IsCause, IfDone, IfRefused, IfBroken, disk_after};
    ghost use Rattle.sn_server.specs.Stores.{Kept, IsOpen, MayHave, after, batch_of, server_disk, server_rows};

    /// What it knows.
    pub fn state(&self) -> &State
        ensures { result.now ≡ self.now.state }
    {
        &self.state
    }

    /// Its disk.
    pub fn disk(&self) -> &D
        ensures { result.now ≡ server_disk self.now }
    {
        self.log.disk()
    }

    /// Gives the disk back. Nothing is in flight. The memory of the rows is left to the end of the process.
    pub fn close(self) -> D
        ensures { result ≡ server_disk self }
    {
        let Server { log, state, .. } = self;
        mem::forget(state);
        log.close()
    }

    // Makes changes in one batch, all of them or none, also in a crash.
    pub(crate) fn commit(self, changes: &[Change]) -> Committed<Server<D>, D>
        requires { All (IsOf ServerOwner) changes.now }
        ensures done { (kept : Kept) → IsOpen self kept → IfDone result (λ server. IsOpen server (after kept changes.now)) }
        ensures rows { IfDone result (λ server. server_rows server ≡ rows_after (server_rows self) changes.now) }
        ensures stays { (kept : Kept) → IsOpen self kept → IfRefused result (λ server error. IsOpen server kept) }
        ensures same { IfRefused result (λ server error. server_rows server ≡ server_rows self) }
        ensures still { IfRefused result (λ server error. server_disk server ≡ server_disk self) }
        ensures cause { IfRefused result (λ server error. IsCause changes.now error) }
        ensures any_moment { D.told → (kept : Kept) → IsOpen self kept →
            LeavesOnly D.moment D.left_since (server_disk self) (disk_after server_disk result) (IsAllOrNothing ServerOwner kept.batches changes.now) }
        ensures broken { (kept : Kept) → IsOpen self kept → IfBroken result (λ disk. MayHave D.told D.may_leave disk kept changes.now) }
        ensures fault { IfBroken result (λ disk. Rose (D.fault_count (server_disk self)) (D.fault_count disk)) }
        ensures calls { D.told → IfDone result (λ server. D.moment (server_disk server) ≡ D.moment (server_disk self) + 4 * length (batch_of changes.now)) }
        ensures most { D.told → D.moment (disk_after server_disk result) ≤ D.moment (server_disk self) + 4 }
        ensures grows { D.grows (server_disk self) (disk_after server_disk result) }
        ensures later { D.fault_count (server_disk self) ≤ D.fault_count (disk_after server_disk result) }
    {
        if changes.is_empty() {
            return Committed::Done(self);
        }
        let Server {
            alloc,
            log,
            mut state,
        } = self;
        let Ok(()) = state.apply(changes) else {
            return Committed::Refused(Server { alloc, log, state }, CommitError::Memory);
        };
        match log.commit(changes) {
            Committed::Done(log) => {
                state.keep();
                Committed::Done(Server { alloc, log, state })
            }
            Committed::Refused(log, error) => {
                state.undo();
                Committed::Refused(Server { alloc, log, state }, error)
            }
            Committed::Broken(disk) => Committed::Broken(disk),
        }
    }
}

impl Server<MemDisk> {
    ghost use Rattle.std.specs.Prelude.{List};
    ghost use Rattle.sn_disk.specs.MemDisk.{HasStopSet};
    ghost use Rattle.sn_server.specs.Stores.{Kept, IsOpen, server_disk, server_rows};

    /// Sets whether and when its disk is to stop. Bytes, record, batches and rows stay as they are.
    pub fn set_stop(&mut self, stop: Stop)
        ensures set { HasStopSet stop (server_disk self.old) (server_disk self.new) }
        ensures rows { server_rows self.new ≡ server_rows self.old }
        ensures stays { (kept : Kept) → IsOpen self.old kept → IsOpen self.new kept }
    {
        self.log.set_stop(stop);
    }
}
