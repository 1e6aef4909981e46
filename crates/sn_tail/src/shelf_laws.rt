//! What holds of stores in the slots of a shelf, whatever the code. The functions do nothing; their contracts are the laws.
ghost use Rattle.std.specs.Prelude.{◌≡◌, List, ℕ};
ghost use Rattle.sn_disk.specs.MemShelf.{shelf_slot};
ghost use Rattle.sn_disk.specs.Shelf.{Slot, holds, unknown};
ghost use Rattle.sn_disk.specs.declared.mem_shelf.MemShelf.{MemShelf};
ghost use Rattle.sn_disk.specs.declared.memory.MemDisk.{MemDisk};
ghost use Rattle.sn_journal.specs.declared.owner.Owner.{Owner};
ghost use Rattle.sn_rows.specs.Table.{Rows, no_rows, rows_of_batches};
ghost use Rattle.sn_rows.specs.declared.change.Change.{Change};
ghost use Rattle.sn_tail.specs.Marks.{StoodAt};
ghost use Rattle.sn_tail.specs.Shelves.{ReadsAs, SlotGrows, SlotReads, SlotStood};

/// Under a name stand the rows of the batches for which its disk stood; without a disk there are none.
pub fn reads_its_disk()
    ensures disk { (shelf : MemShelf) (name : List ℕ) (disk : MemDisk) → shelf_slot shelf name ≡ holds disk →
        (mark : ℕ) (owner : Owner) (batches : List (List Change)) → StoodAt disk mark owner batches →
        ReadsAs shelf name owner mark (rows_of_batches batches) }
    ensures none { (shelf : MemShelf) (name : List ℕ) (owner : Owner) → shelf_slot shelf name ≡ unknown → ReadsAs shelf name owner 0 no_rows }
{}

/// What is read at a mark stays so as the disk's record grows, or begins.
pub fn reads_then()
    ensures stood { (old new : Slot MemDisk) → SlotGrows old new → (owner : Owner) (mark : ℕ) (batches : List (List Change)) →
        SlotStood old owner mark batches → SlotStood new owner mark batches }
    ensures rows { (old new : Slot MemDisk) → SlotGrows old new → (owner : Owner) (mark : ℕ) (rows : Rows) →
        SlotReads old owner mark rows → SlotReads new owner mark rows }
{}

/// A slot goes on as another one.
pub fn slots_grow()
    ensures same { (disk : MemDisk) → SlotGrows (holds disk) (holds disk) }
    ensures on { (a b c : Slot MemDisk) → SlotGrows a b → SlotGrows b c → SlotGrows a c }
{}

/// At a mark one table of rows is read.
pub fn reads_once()
    ensures { (slot : Slot MemDisk) (owner : Owner) (mark : ℕ) (one other : Rows) →
        SlotReads slot owner mark one → SlotReads slot owner mark other → one ≡ other }
{}
