// Loading what a crash may have left.
ghost use Rattle.std.specs.Prelude.{◌≡◌, ◌⊎◌, ◌≤◌, ◌+◌, ◌*◌, ◌++◌, [], ◌∷◌, List, ℕ, length, IfOk, IfErr, OnOk};
ghost use Rattle.sn_io.specs.Causes.{Rose};
ghost use Rattle.sn_disk.specs.Disk.{Only, LeavesOnly, Counts};
ghost use Rattle.sn_journal.specs.Image.{IsImage, IsBeforeOrAfter, SameBatches, missing_writes};
ghost use Rattle.sn_journal.specs.Loading.{IsLoadError};
ghost use Rattle.sn_journal.specs.Opening.{IsOpened};
ghost use Rattle.sn_journal.specs.AtRest.{IsRead, IsLoaded, owner_of, loaded_disk};

use crate::finding::{Found, found_in};
use crate::making::make_from;
use crate::{Batches, Journal, JournalError, Owner};
use sn_disk::Disk;
use std::alloc::Global;

/// Loads the journal of a disk with its batches, or makes it where it was never begun or finished.
///
/// After an error the disk may be loaded again.
pub fn load<D: Disk>(
    alloc: Global,
    disk: D,
    owner: Owner,
) -> Result<(Journal<D>, Batches), (D, JournalError)>
    // The batches are those that the disk's bytes stand for, and each crash leaves them.
    ensures loaded { D.told → IfOk result (λ found. IsLoaded owner (D.seen disk) found.0 found.1) }
    ensures owner { IfOk result (λ found. owner_of found.0 ≡ owner) }

    // A crash at any moment leaves what it might have left before, or the same batches.
    ensures any_moment { D.told → LeavesOnly D.moment D.left_since disk (loaded_disk result)
        (λ c. D.may_leave disk c ⊎ SameBatches owner (D.seen disk) c) }

    // Where each outcome of a crash stands for the same batches, these are given, and each further one does too.
    ensures same { D.told → (payloads : List (List ℕ)) → ((c : List ℕ) → D.may_leave disk c → IsImage owner c payloads) →
        IfOk result (λ found. IsRead found.0 found.1 payloads)
        × LeavesOnly D.moment D.left_since disk (loaded_disk result) (λ c. IsImage owner c payloads) }

    // Where each outcome stands for some batches or for these with one more, either are given.
    ensures either { D.told → (payloads : List (List ℕ)) (payload : List ℕ) → ((c : List ℕ) → D.may_leave disk c → IsBeforeOrAfter owner payloads payload c) →
        IfOk result (λ found. IsRead found.0 found.1 payloads ⊎ IsRead found.0 found.1 (payloads ++ payload ∷ []))
        × LeavesOnly D.moment D.left_since disk (loaded_disk result) (IsBeforeOrAfter owner payloads payload) }

    // A sync, and two calls for each write that is missing.
    ensures calls { D.told → Counts (1 + 2 * missing_writes (D.seen disk)) (D.moment disk) (D.moment (loaded_disk result)) result }

    ensures refused { IfErr result (λ refusal. IsLoadError owner D.told (D.seen disk) (D.fault_count disk) (D.fault_count refusal.0) refusal.1) }
    ensures grows { D.grows disk (loaded_disk result) }
    ensures later { D.fault_count disk ≤ D.fault_count (loaded_disk result) }
    ensures quiet { OnOk result (D.fault_count (loaded_disk result) ≡ D.fault_count disk) }
{
    let mut disk = disk;
    match open(alloc, &mut disk, owner) {
        Ok(opened) => {
            let journal = Journal::opened(alloc, disk, owner, opened.gate, opened.count);
            Ok((journal, opened.batches))
        }
        Err(error) => Err((disk, error)),
    }
}

// The place of the closed gate, and the batches before it.
#[derive(Drop)]
pub(crate) struct Opened {
    gate: u64,
    count: u64,
    batches: Batches,
}

// Opens a journal, or makes it.
fn open<D: Disk>(alloc: Global, disk: &mut D, owner: Owner) -> Result<Opened, JournalError>
    ensures opened { D.told → IfOk result (IsOpened D.seen D.may_leave owner disk.old disk.new) }
    ensures any_moment { D.told → LeavesOnly D.moment D.left_since disk.old disk.new
        (λ c. D.may_leave disk.old c ⊎ SameBatches owner (D.seen disk.old) c) }
    ensures calls { D.told → Counts (1 + 2 * missing_writes (D.seen disk.old)) (D.moment disk.old) (D.moment disk.new) result }
    ensures refused { IfErr result (IsLoadError owner D.told (D.seen disk.old) (D.fault_count disk.old) (D.fault_count disk.new)) }
    ensures grows { D.grows disk.old disk.new }
    ensures later { D.fault_count disk.old ≤ D.fault_count disk.new }
    ensures quiet { OnOk result (D.fault_count disk.new ≡ D.fault_count disk.old) }
{
    let bytes = read_synced(alloc, disk)?;
    match found_in(&bytes, owner) {
        Found::Batches { count, gate } => Ok(Opened {
            gate,
            count,
            batches: Batches::behind_header(bytes),
        }),
        Found::Foreign { place } => Err(JournalError::Foreign { place }),
        Found::Damaged { place } => Err(JournalError::Damaged { place }),
        Found::Unfinished(start) => {
            make_from(disk, owner, start)?;
            Ok(Opened {
                gate: 16,
                count: 0,
                batches: Batches::none(alloc),
            })
        }
    }
}

// All the bytes of a disk, which from then on are what a crash leaves.
fn read_synced<D: Disk>(alloc: Global, disk: &mut D) -> Result<Vec<u8>, JournalError>
    ensures bytes { D.told → IfOk result (λ bytes. bytes.items ≡ D.seen disk.old) }
    ensures seen { D.told → OnOk result (D.seen disk.new ≡ D.seen disk.old) }
    ensures durable { D.told → OnOk result (Only (D.seen disk.new) (D.may_leave disk.new)) }
    ensures any_moment { D.told → LeavesOnly D.moment D.left_since disk.old disk.new (D.may_leave disk.old) }
    ensures one { D.told → Counts 1 (D.moment disk.old) (D.moment disk.new) result }
    ensures grows { D.grows disk.old disk.new }
    ensures later { D.fault_count disk.old ≤ D.fault_count disk.new }
    ensures quiet { OnOk result (D.fault_count disk.new ≡ D.fault_count disk.old) }
    ensures refused { IfErr result (λ e. (e ≡ JournalError.Memory) ⊎ ((e ≡ JournalError.DiskFault) × Rose (D.fault_count disk.old) (D.fault_count disk.new))) }
{
    disk.sync()?;
    read_whole(alloc, disk)
}

// All the bytes of a disk, in one read.
fn read_whole<D: Disk>(alloc: Global, disk: &mut D) -> Result<Vec<u8>, JournalError>
    ensures bytes { D.told → IfOk result (λ bytes. bytes.items ≡ D.seen disk.old) }
    ensures seen { D.told → D.seen disk.new ≡ D.seen disk.old }
    ensures crash { D.told → (c : List ℕ) → D.may_leave disk.new c → D.may_leave disk.old c }
    ensures any_moment { D.told → LeavesOnly D.moment D.left_since disk.old disk.new (D.may_leave disk.old) }
    ensures still { D.told → D.moment disk.new ≡ D.moment disk.old }
    ensures grows { D.grows disk.old disk.new }
    ensures later { D.fault_count disk.old ≤ D.fault_count disk.new }
    ensures quiet { OnOk result (D.fault_count disk.new ≡ D.fault_count disk.old) }
    ensures refused { IfErr result (λ e. (e ≡ JournalError.Memory) ⊎ ((e ≡ JournalError.DiskFault) × Rose (D.fault_count disk.old) (D.fault_count disk.new))) }
{
    let len = disk.len()?;
    let mut bytes = Vec::new(alloc);
    bytes.resize(len as usize, 0u8)?;
    disk.read(0, &mut bytes)?;
    Ok(bytes)
}
