// Where disks are kept by name.
ghost use Rattle.std.specs.Prelude.{◌≡◌, ◌≢◌, ◌≤◌, List, ℕ, IfOk, OnOk, OnErr};
ghost use Rattle.sn_io.specs.Causes.{CountsFailure};
ghost use Rattle.sn_disk.specs.Shelf.{Slot, out, holds};

use crate::Disk;
use sn_io::Failed;

/// Where disks are kept by name. A disk is taken, used and given back.
pub trait Shelf {
    /// The disks.
    type D: Disk;

    /// Whether it tells its disks, as one in memory does. Then they tell their bytes.
    ghost told: { Type 0 };

    /// What stands under a name.
    ghost slot: { Self → List ℕ → Slot Self.D };

    /// How often a call has failed.
    ghost fault_count: { Self → ℕ };

    /// How often a call has failed.
    fn faults(&self) -> u64
        ensures { result ≡ fault_count self.now };

    /// Takes the disk of this name.
    fn take(&mut self, name: &str) -> Result<Self::D, Failed>
        ensures taken { told → IfOk result (λ disk. slot self.old name.now ≡ holds disk) }
        ensures out { told → OnOk result (slot self.new name.now ≡ out) }
        ensures others { told → (other : List ℕ) → other ≢ name.now → slot self.new other ≡ slot self.old other }
        ensures stays { told → OnErr result (slot self.new name.now ≡ slot self.old name.now) }
        ensures cause { CountsFailure (fault_count self.old) (fault_count self.new) result };

    /// Gives back the disk that was taken under this name.
    fn give(&mut self, name: &str, disk: Self::D)
        requires { told → slot self.old name.now ≡ out }
        ensures given { told → slot self.new name.now ≡ holds disk }
        ensures others { told → (other : List ℕ) → other ≢ name.now → slot self.new other ≡ slot self.old other }
        ensures faults { fault_count self.new ≡ fault_count self.old };

    /// A shelf that tells its disks has disks that tell their bytes.
    ghost disks_tell: { told → Self.D.told };
}
