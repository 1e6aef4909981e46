//! What holds of marks, whatever the code. The functions do nothing; their contracts are the laws.
ghost use Rattle.std.specs.Prelude.{◌≡◌, ◌⊎◌, ◌≤◌, ◌++◌, [], ◌∷◌, List, ℕ};
ghost use Rattle.sn_disk.specs.Disk.{Only};
ghost use Rattle.sn_disk.specs.Growth.{Longer};
ghost use Rattle.sn_disk.specs.MemDisk.{Grows, HasStopSet, disk_state, disk_told};
ghost use Rattle.sn_disk.specs.Steps.{Leaves};
ghost use Rattle.sn_disk.specs.declared.images.Stop.{Stop};
ghost use Rattle.sn_disk.specs.declared.memory.MemDisk.{MemDisk};
ghost use Rattle.sn_journal.specs.declared.owner.Owner.{Owner};
ghost use Rattle.sn_rows.specs.declared.change.Change.{Change};
ghost use Rattle.sn_table.specs.Batches.{IsAllOrNothing, IsStore};
ghost use Rattle.sn_table.specs.Logs.{StandsFor, log_disk, log_owner};
ghost use Rattle.sn_table.specs.Tables.{IsOpen, table_disk, table_owner};
ghost use Rattle.sn_tail.specs.Marks.{HasBehind, HasOneFile, StoodAt, StoodAtEither, WasSo, mark_of};

use sn_disk::MemDisk;
use sn_table::{Log, Table};

/// A disk stands, at its present mark, for the batches for which each file stands that a crash may leave now. So it does where a
/// commit was made whole or not at all.
pub fn stands_now()
    ensures at { (disk : MemDisk) (owner : Owner) (batches : List (List Change)) →
        ((file : List ℕ) → Leaves (disk_told disk) file → IsStore owner file batches) → StoodAt disk (mark_of disk) owner batches }
    ensures either { (disk : MemDisk) (owner : Owner) (batches : List (List Change)) (changes : List Change) →
        ((file : List ℕ) → Leaves (disk_told disk) file → IsAllOrNothing owner batches changes file) → StoodAtEither disk (mark_of disk) owner batches changes }
    ensures fresh { (disk : MemDisk) (owner : Owner) → (disk_told disk).start ≡ [] → StoodAt disk 0 owner [] }
{}

/// The disk of an open table stands, at its present mark, for the table's batches, and a crash leaves nothing else.
pub fn table_stands(_table: &Table<MemDisk>)
    ensures at { (batches : List (List Change)) → IsOpen _table.now batches →
        StoodAt (table_disk _table.now) (mark_of (table_disk _table.now)) (table_owner _table.now) batches }
    ensures one { (before later : List (List Change)) → IsOpen _table.now (before ++ later) → HasOneFile (table_disk _table.now) (table_owner _table.now) before }
{}

/// The disk of an open log stands, at its present mark, for the log's batches, and a crash leaves nothing else.
pub fn log_stands(_log: &Log<MemDisk>)
    ensures at { (batches : List (List Change)) → StandsFor _log.now batches →
        StoodAt (log_disk _log.now) (mark_of (log_disk _log.now)) (log_owner _log.now) batches }
    ensures one { (before later : List (List Change)) → StandsFor _log.now (before ++ later) → HasOneFile (log_disk _log.now) (log_owner _log.now) before }
{}

/// What stood at a mark stands at it as the record grows.
pub fn stands_then()
    ensures at { (old new : MemDisk) → Longer (disk_told old) (disk_told new) → (mark : ℕ) (owner : Owner) (batches : List (List Change)) →
        StoodAt old mark owner batches → StoodAt new mark owner batches }
    ensures either { (old new : MemDisk) → Longer (disk_told old) (disk_told new) → (mark : ℕ) (owner : Owner) (batches : List (List Change)) (changes : List Change) →
        StoodAtEither old mark owner batches changes → StoodAtEither new mark owner batches changes }
{}

/// A record grows by the calls of its disk, and stays as it is where a stop is set or the disk is copied.
pub fn record_grows()
    ensures calls { (old new : MemDisk) → Grows old new → Longer (disk_told old) (disk_told new) }
    ensures set { (stop : Stop) (old new : MemDisk) → HasStopSet stop old new → Longer (disk_told old) (disk_told new) }
    ensures copied { (old new : MemDisk) → disk_state new ≡ disk_state old → Longer (disk_told old) (disk_told new) }
    ensures on { (a b c : MemDisk) → Longer (disk_told a) (disk_told b) → Longer (disk_told b) (disk_told c) → Longer (disk_told a) (disk_told c) }
    ensures later { (old new : MemDisk) → Longer (disk_told old) (disk_told new) → mark_of old ≤ mark_of new }
{}

/// Where a crash leaves just one file, as once the disk has stopped, a commit that was made whole or not at all is the one or the other.
pub fn decides()
    ensures { (disk : MemDisk) (owner : Owner) (batches : List (List Change)) (changes : List Change) →
        Only (disk_told disk).bytes (Leaves (disk_told disk)) → StoodAtEither disk (mark_of disk) owner batches changes →
        StoodAt disk (mark_of disk) owner batches ⊎ StoodAt disk (mark_of disk) owner (batches ++ changes ∷ []) }
{}

/// Where a crash leaves just one file, and each file that a crash may leave stands for these batches and some behind them, the file
/// does, as `tail_of` asks for it.
pub fn has_one_file()
    ensures any { (disk : MemDisk) (owner : Owner) (before : List (List Change)) →
        Only (disk_told disk).bytes (Leaves (disk_told disk)) → WasSo disk (mark_of disk) (HasBehind owner before) → HasOneFile disk owner before }
    ensures at { (disk : MemDisk) (owner : Owner) (before later : List (List Change)) →
        Only (disk_told disk).bytes (Leaves (disk_told disk)) → StoodAt disk (mark_of disk) owner (before ++ later) → HasOneFile disk owner before }
    ensures either { (disk : MemDisk) (owner : Owner) (before later : List (List Change)) (changes : List Change) →
        Only (disk_told disk).bytes (Leaves (disk_told disk)) → StoodAtEither disk (mark_of disk) owner (before ++ later) changes → HasOneFile disk owner before }
{}

/// At a mark a disk stood for one list of batches at most.
pub fn is_one_list()
    ensures { (disk : MemDisk) (mark : ℕ) (owner : Owner) (one other : List (List Change)) →
        StoodAt disk mark owner one → StoodAt disk mark owner other → one ≡ other }
{}
