// Loading a table from what a crash may have left.

ghost use Rattle.std.specs.Prelude.{◌≡◌, ◌⊎◌, ◌≤◌, ◌+◌, ◌*◌, ◌++◌, [], ◌∷◌, List, ℕ, length, IfOk, IfErr, OnOk, Ok};
ghost use Rattle.sn_disk.specs.Disk.{LeavesOnly, Counts};
ghost use Rattle.sn_journal.specs.Image.{SameBatches, missing_writes};
ghost use Rattle.sn_row_map.specs.RowMaps.{IsTidy};
ghost use Rattle.sn_rows.specs.declared.change.Change.{Change};
ghost use Rattle.sn_table.specs.Batches.{IsStore, IsAllOrNothing};
ghost use Rattle.sn_table.specs.Logs.{HasOwned, IsLoadError, loaded_disk};
ghost use Rattle.sn_table.specs.Tables.{IsOpen, IsOpened, table_disk, table_owner, table_rows};

use crate::error::TableError;
use crate::opening::load_log;
use crate::table::Table;
use sn_disk::Disk;
use sn_journal::{JournalError, Owner};
use std::alloc::Global;

/// Loads the table of a disk, or makes it where it was never begun or finished.
///
/// After an error the disk may be loaded again.
pub fn load<D: Disk>(alloc: Global, disk: D, owner: Owner) -> Result<Table<D>, (D, TableError)>
    // It is open with the batches that the disk's bytes stand for.
    ensures loaded { D.told → IfOk result (IsOpened owner (D.seen disk)) }
    ensures owner { IfOk result (λ table. table_owner table ≡ owner) }
    ensures owned { IfOk result (λ table. HasOwned owner (table_rows table)) }
    ensures tidy { IfOk result (λ table. IsTidy (table_rows table)) }

    // A crash at any moment leaves what it might have left before, or the same batches.
    ensures any_moment { D.told → LeavesOnly D.moment D.left_since disk (loaded_disk table_disk result)
        (λ c. D.may_leave disk c ⊎ SameBatches owner (D.seen disk) c) }

    // Where each outcome of a crash stands for the same batches, the table is open with these, and each
    // further outcome stands for them.
    ensures same { D.told → (batches : List (List Change)) → ((c : List ℕ) → D.may_leave disk c → IsStore owner c batches) →
        IfOk result (λ table. IsOpen table batches)
        × LeavesOnly D.moment D.left_since disk (loaded_disk table_disk result) (λ c. IsStore owner c batches) }

    // Where each outcome has a last batch whole or not at all, so has the table, and each further outcome.
    ensures either { D.told → (batches : List (List Change)) (changes : List Change) → ((c : List ℕ) → D.may_leave disk c → IsAllOrNothing owner batches changes c) →
        IfOk result (λ table. IsOpen table batches ⊎ IsOpen table (batches ++ changes ∷ []))
        × LeavesOnly D.moment D.left_since disk (loaded_disk table_disk result) (IsAllOrNothing owner batches changes) }

    // A sync, and two calls for each write of a start that is missing.
    ensures calls { D.told → Counts (1 + 2 * missing_writes (D.seen disk)) (D.moment disk) (D.moment (loaded_disk table_disk result)) result }

    ensures refused { IfErr result (λ refusal. IsLoadError owner D.told (D.seen disk) (D.fault_count disk) (D.fault_count refusal.0) refusal.1) }
    ensures grows { D.grows disk (loaded_disk table_disk result) }
    ensures later { D.fault_count disk ≤ D.fault_count (loaded_disk table_disk result) }
    ensures quiet { OnOk result (D.fault_count (loaded_disk table_disk result) ≡ D.fault_count disk) }
{
    match load_log(alloc, disk, owner) {
        Ok((log, rows)) => Ok(Table::opened(alloc, log, rows)),
        Err(refusal) => Err(refusal),
    }
}

/// How many batches these bytes of an owner's disk stand for. It reads no payload, takes no memory and calls no disk.
pub fn batches_in(bytes: &[u8], owner: Owner) -> Result<u64, JournalError>
    ensures { (batches : List (List Change)) → IsStore owner bytes.now batches → result ≡ Ok (length batches) }
{
    sn_journal::batches_in(bytes, owner)
}
