// Loading a log from what a crash may have left.

ghost use Rattle.std.specs.Prelude.{◌≡◌, ◌⊎◌, ◌≤◌, ◌+◌, ◌*◌, ◌++◌, [], ◌∷◌, List, ℕ, IfOk, IfErr, OnOk};
ghost use Rattle.sn_disk.specs.Disk.{LeavesOnly, Counts};
ghost use Rattle.sn_journal.specs.Image.{SameBatches, missing_writes};
ghost use Rattle.sn_row_map.specs.RowMaps.{IsTidy};
ghost use Rattle.sn_rows.specs.declared.change.Change.{Change};
ghost use Rattle.sn_table.specs.Batches.{IsStore, IsAllOrNothing};
ghost use Rattle.sn_table.specs.Logs.{HasKinds, HasOwned, HasRows, IsLoaded, IsLoadError, log_disk, log_owner, loaded_disk};

use crate::error::{TableError, of_journal};
use crate::log::Log;
use crate::reading::{Unread, rows_of};
use sn_disk::Disk;
use sn_journal::Owner;
use sn_row_map::RowMap;
use std::alloc::Global;

/// Loads the log of a disk with the rows that its batches leave, or makes it where it was never begun or finished.
///
/// After an error the disk may be loaded again.
pub fn load_log<D: Disk>(
    alloc: Global,
    disk: D,
    owner: Owner,
) -> Result<(Log<D>, RowMap), (D, TableError)>
    // It stands for the batches that the disk's bytes stand for.
    ensures loaded { D.told → IfOk result (λ found. IsLoaded owner (D.seen disk) found.0 found.1) }
    ensures owner { IfOk result (λ found. log_owner found.0 ≡ owner) }
    ensures kinds { IfOk result (λ found. HasKinds found.1) }
    ensures owned { IfOk result (λ found. HasOwned owner found.1) }
    ensures tidy { IfOk result (λ found. IsTidy found.1) }

    // A crash at any moment leaves what it might have left before, or the same batches.
    ensures any_moment { D.told → LeavesOnly D.moment D.left_since disk (loaded_disk (λ found. log_disk found.0) result)
        (λ c. D.may_leave disk c ⊎ SameBatches owner (D.seen disk) c) }

    // Where each outcome of a crash stands for the same batches, so does the log, and each further outcome.
    ensures same { D.told → (batches : List (List Change)) → ((c : List ℕ) → D.may_leave disk c → IsStore owner c batches) →
        IfOk result (λ found. HasRows found.0 found.1 batches)
        × LeavesOnly D.moment D.left_since disk (loaded_disk (λ found. log_disk found.0) result) (λ c. IsStore owner c batches) }

    // Where each outcome has a last batch whole or not at all, so has the log, and each further outcome.
    ensures either { D.told → (batches : List (List Change)) (changes : List Change) → ((c : List ℕ) → D.may_leave disk c → IsAllOrNothing owner batches changes c) →
        IfOk result (λ found. HasRows found.0 found.1 batches ⊎ HasRows found.0 found.1 (batches ++ changes ∷ []))
        × LeavesOnly D.moment D.left_since disk (loaded_disk (λ found. log_disk found.0) result) (IsAllOrNothing owner batches changes) }

    // A sync, and two calls for each write of a start that is missing.
    ensures calls { D.told → Counts (1 + 2 * missing_writes (D.seen disk)) (D.moment disk) (D.moment (loaded_disk (λ found. log_disk found.0) result)) result }

    ensures refused { IfErr result (λ refusal. IsLoadError owner D.told (D.seen disk) (D.fault_count disk) (D.fault_count refusal.0) refusal.1) }
    ensures grows { D.grows disk (loaded_disk (λ found. log_disk found.0) result) }
    ensures later { D.fault_count disk ≤ D.fault_count (loaded_disk (λ found. log_disk found.0) result) }
    ensures quiet { OnOk result (D.fault_count (loaded_disk (λ found. log_disk found.0) result) ≡ D.fault_count disk) }
{
    open_log(alloc, disk, owner)
}

fn open_log<D: Disk>(
    alloc: Global,
    disk: D,
    owner: Owner,
) -> Result<(Log<D>, RowMap), (D, TableError)>
    ensures loaded { D.told → IfOk result (λ found. IsLoaded owner (D.seen disk) found.0 found.1) }
    ensures owner { IfOk result (λ found. log_owner found.0 ≡ owner) }
    ensures kinds { IfOk result (λ found. HasKinds found.1) }
    ensures owned { IfOk result (λ found. HasOwned owner found.1) }
    ensures tidy { IfOk result (λ found. IsTidy found.1) }
    ensures any_moment { D.told → LeavesOnly D.moment D.left_since disk (loaded_disk (λ found. log_disk found.0) result)
        (λ c. D.may_leave disk c ⊎ SameBatches owner (D.seen disk) c) }
    ensures calls { D.told → Counts (1 + 2 * missing_writes (D.seen disk)) (D.moment disk) (D.moment (loaded_disk (λ found. log_disk found.0) result)) result }
    ensures refused { IfErr result (λ refusal. IsLoadError owner D.told (D.seen disk) (D.fault_count disk) (D.fault_count refusal.0) refusal.1) }
    ensures grows { D.grows disk (loaded_disk (λ found. log_disk found.0) result) }
    ensures later { D.fault_count disk ≤ D.fault_count (loaded_disk (λ found. log_disk found.0) result) }
    ensures quiet { OnOk result (D.fault_count (loaded_disk (λ found. log_disk found.0) result) ≡ D.fault_count disk) }
{
    let (journal, batches) = match sn_journal::load(alloc, disk, owner) {
        Ok(found) => found,
        Err((disk, error)) => return Err((disk, of_journal(error))),
    };
    match rows_of(alloc, owner, &batches) {
        Ok(rows) => Ok((Log::opened(alloc, journal), rows)),
        Err(Unread::Memory) => Err((journal.close(), TableError::Memory)),
        Err(Unread::NoBatch { gate }) => {
            Err((journal.close(), TableError::Damaged { place: gate }))
        }
    }
}
