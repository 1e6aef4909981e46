// The three writes of a start, from the one that is missing on.
ghost use Rattle.std.specs.Prelude.{◌≡◌, ◌≤◌, ◌<◌, ◌⊎◌, ◌++◌, ◌∷◌, ◌*◌, [], List, ℕ, length, drop, slice_index, OnOk};
ghost use Rattle.sn_disk.specs.Disk.{Only, LeavesOnly, Counts};
ghost use Rattle.sn_io.specs.Causes.{CountsFailure};
ghost use Rattle.sn_journal.specs.Loading.{IsStartAt, writes_of};
ghost use Rattle.sn_journal.specs.Image.{header_of, IsImage};

use crate::Owner;
use crate::beginning::{Start, after_first_byte};
use sn_disk::{Disk, write_durably};
use sn_io::Failed;

/// Makes a journal, from the first write that is missing.
pub(crate) fn make_from<D: Disk>(disk: &mut D, owner: Owner, start: Start) -> Result<(), Failed>
    requires { D.told → IsStartAt owner (D.seen disk.old) start }
    ensures made { D.told → OnOk result (D.seen disk.new ≡ header_of owner ++ 0 ∷ []) }
    ensures durable { D.told → OnOk result (Only (D.seen disk.new) (D.may_leave disk.new)) }
    ensures any_moment { D.told → Only (D.seen disk.old) (D.may_leave disk.old) →
        LeavesOnly D.moment D.left_since disk.old disk.new (λ c. IsImage owner c []) }
    ensures calls { D.told → Counts (2 * writes_of start) (D.moment disk.old) (D.moment disk.new) result }
    ensures grows { D.grows disk.old disk.new }
    ensures cause { CountsFailure (D.fault_count disk.old) (D.fault_count disk.new) result }
    ensures quiet { OnOk result (D.fault_count disk.new ≡ D.fault_count disk.old) }
{
    match start {
        Start::Fresh => make(disk, owner),
        Start::NoHeader => make_header(disk, owner),
        Start::NoFirstByte => make_first_byte(disk, owner),
    }
}

// Begins a journal on a disk of at most one byte.
fn make<D: Disk>(disk: &mut D, owner: Owner) -> Result<(), Failed>
    requires { D.told → length (D.seen disk.old) ≤ 1 }
    ensures made { D.told → OnOk result (D.seen disk.new ≡ header_of owner ++ 0 ∷ []) }
    ensures durable { D.told → OnOk result (Only (D.seen disk.new) (D.may_leave disk.new)) }
    ensures any_moment { D.told → Only (D.seen disk.old) (D.may_leave disk.old) →
        LeavesOnly D.moment D.left_since disk.old disk.new (λ c. IsImage owner c []) }
    ensures calls { D.told → Counts 6 (D.moment disk.old) (D.moment disk.new) result }
    ensures grows { D.grows disk.old disk.new }
    ensures cause { CountsFailure (D.fault_count disk.old) (D.fault_count disk.new) result }
    ensures quiet { OnOk result (D.fault_count disk.new ≡ D.fault_count disk.old) }
{
    write_durably(disk, 0, &[0])?;
    make_header(disk, owner)
}

// Goes on where the first byte is 0.
fn make_header<D: Disk>(disk: &mut D, owner: Owner) -> Result<(), Failed>
    requires { D.told → (0 < length (D.seen disk.old)) × (length (D.seen disk.old) ≤ 17) × (slice_index (D.seen disk.old) 0 ≡ 0) }
    ensures made { D.told → OnOk result (D.seen disk.new ≡ header_of owner ++ 0 ∷ []) }
    ensures durable { D.told → OnOk result (Only (D.seen disk.new) (D.may_leave disk.new)) }
    ensures any_moment { D.told → Only (D.seen disk.old) (D.may_leave disk.old) →
        LeavesOnly D.moment D.left_since disk.old disk.new (λ c. IsImage owner c []) }
    ensures calls { D.told → Counts 4 (D.moment disk.old) (D.moment disk.new) result }
    ensures grows { D.grows disk.old disk.new }
    ensures cause { CountsFailure (D.fault_count disk.old) (D.fault_count disk.new) result }
    ensures quiet { OnOk result (D.fault_count disk.new ≡ D.fault_count disk.old) }
{
    write_durably(disk, 1, &after_first_byte(owner))?;
    make_first_byte(disk, owner)
}

// Goes on where only the first byte is missing.
#[tactic(auto, unfolding(crate::specs::Image::header_of))]
fn make_first_byte<D: Disk>(disk: &mut D, _owner: Owner) -> Result<(), Failed>
    requires { D.told → (length (D.seen disk.old) ≡ 17) × (drop 1 (D.seen disk.old) ≡ drop 1 (header_of _owner) ++ 0 ∷ []) }
    ensures made { D.told → OnOk result (D.seen disk.new ≡ header_of _owner ++ 0 ∷ []) }
    ensures durable { D.told → OnOk result (Only (D.seen disk.new) (D.may_leave disk.new)) }
    ensures any_moment { D.told → Only (D.seen disk.old) (D.may_leave disk.old) →
        LeavesOnly D.moment D.left_since disk.old disk.new (λ c. IsImage _owner c []) }
    ensures calls { D.told → Counts 2 (D.moment disk.old) (D.moment disk.new) result }
    ensures grows { D.grows disk.old disk.new }
    ensures cause { CountsFailure (D.fault_count disk.old) (D.fault_count disk.new) result }
    ensures quiet { OnOk result (D.fault_count disk.new ≡ D.fault_count disk.old) }
{
    write_durably(disk, 0, b"S")
}
