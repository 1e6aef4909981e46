//! What holds of every disk. The functions do nothing; their contracts are the laws.
ghost use Rattle.std.specs.Prelude.{◌≤◌, ◌↔◌, List, ℕ, length};
ghost use Rattle.sn_disk.specs.Courses.{IsReachedInItsCall};
ghost use Rattle.sn_disk.specs.Steps.{Leaves, LeftAt};
ghost use Rattle.sn_disk.specs.MemDisk.{disk_told, Grows};
ghost use Rattle.sn_disk.specs.declared.memory.MemDisk.{MemDisk};

use crate::Disk;

/// What a disk reads as is one of the outcomes of a crash since any moment before, and so is what a crash now
/// leaves. So a disk whose call failed is, when it is read next, one of the outcomes that the contract of the call
/// names.
pub fn read_after_any_moment<D: Disk>()
    ensures read { D.told → (disk : D) (t : ℕ) → t ≤ D.moment disk → D.left_since disk t (D.seen disk) }
    ensures left { D.told → (disk : D) (t : ℕ) → t ≤ D.moment disk → (c : List ℕ) → D.may_leave disk c → D.left_since disk t c }
{}

/// What a crash at a moment might have left stays known, whatever calls follow. The last moment of a record is now.
pub fn past_stays()
    ensures past { (old new : MemDisk) → Grows old new → (t : ℕ) → t ≤ length (disk_told old).steps → (c : List ℕ) →
        LeftAt (disk_told new) t c ↔ LeftAt (disk_told old) t c }
    ensures now { (disk : MemDisk) (c : List ℕ) → LeftAt (disk_told disk) (length (disk_told disk).steps) c ↔ Leaves (disk_told disk) c }
{}

/// A disk in memory stops in the call that its stop names, and in no other.
pub fn stops_in_its_call()
    ensures { IsReachedInItsCall }
{}
