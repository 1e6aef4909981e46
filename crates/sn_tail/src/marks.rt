// What a disk in memory stood for.
ghost use Rattle.std.specs.Prelude.{◌≡◌, ◌⊎◌, ◌++◌, [], ◌∷◌, List, MatchResult, IfErr, IfOk};
ghost use Rattle.sn_disk.specs.Disk.{Only};
ghost use Rattle.sn_disk.specs.MemDisk.{disk_told};
ghost use Rattle.sn_disk.specs.Steps.{Leaves};
ghost use Rattle.sn_rows.specs.declared.change.Change.{Change};
ghost use Rattle.sn_table.specs.Batches.{IsStore};
ghost use Rattle.sn_tail.specs.Added.{IsAdded};
ghost use Rattle.sn_tail.specs.Marks.{HasOneFile, StoodAtEither, mark_of};
ghost use Rattle.sn_tail.specs.Places.{place_behind};
ghost use Rattle.sn_tail.specs.Tails.{IsTail, IsTailError};

use crate::{Tail, TailError, batches_behind};
use sn_disk::MemDisk;
use sn_journal::Owner;
use std::alloc::Global;

/// The present mark of a disk: how many changing calls its record has.
pub fn mark_of(disk: &MemDisk) -> u64
    ensures { result ≡ mark_of disk.now }
{
    disk.moment()
}

/// Reads the batches that were added to a store behind the gate at a place, of a disk of which a crash leaves just what reads give:
/// one that is open and at rest, or one that has stopped.
pub fn tail_of(alloc: Global, owner: Owner, disk: &MemDisk, place: u64) -> Result<Tail, TailError>
    // It has the batches behind those that end at the place.
    ensures behind { (before later : List (List Change)) → IsStore owner (disk_told disk.now).bytes (before ++ later) → place ≡ place_behind owner before
        → MatchResult result (λ tail. (tail.batches ≡ later) × (tail.gate ≡ place_behind owner (before ++ later))) (λ error. error ≡ TailError.Memory) }
    // At the present mark the disk stands for the earlier batches and for these behind them.
    ensures stood { (before : List (List Change)) → HasOneFile disk.now owner before → place ≡ place_behind owner before
        → MatchResult result (IsAdded disk.now owner before) (λ error. error ≡ TailError.Memory) }
    // Where a last batch was made whole or not at all, the tail has it or not, and so has the disk.
    ensures either { (before later : List (List Change)) (changes : List Change) → Only (disk_told disk.now).bytes (Leaves (disk_told disk.now))
        → StoodAtEither disk.now (mark_of disk.now) owner (before ++ later) changes → place ≡ place_behind owner before
        → MatchResult result (λ tail. ((tail.batches ≡ later) ⊎ (tail.batches ≡ later ++ changes ∷ [])) × IsAdded disk.now owner before tail) (λ error. error ≡ TailError.Memory) }
    // And of any other disk it reads what stands there.
    ensures read { IfOk result (λ tail. IsTail owner (disk_told disk.now).bytes place tail.batches tail.gate) }
    ensures refused { IfErr result (IsTailError owner (disk_told disk.now).bytes place) }
{
    batches_behind(alloc, owner, disk.bytes(), place)
}
