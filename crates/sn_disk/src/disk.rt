// What is asked of a disk.
ghost use Rattle.std.specs.Prelude.{◌≡◌, ◌+◌, ◌≤◌, ◌<◌, ◌^◌, List, ℕ, length, take, drop, IfOk, OnOk};
ghost use Rattle.sn_disk.specs.Disk.{overwritten, Only, Follows, Torn, Cut, Elapses, Counts, Growing};
ghost use Rattle.sn_io.specs.Causes.{CountsFailure};

use sn_io::Failed;

/// A disk. Its changing calls are `write_at`, `cut` and `sync`.
pub trait Disk {
    /// Whether it tells its bytes, as one in memory does. Of one that doesn't, only faults are said.
    ghost told: { Type 0 };

    /// The bytes that reads give.
    ghost seen: { Self → List ℕ };

    /// What a crash at this moment may leave.
    ghost may_leave: { Self → List ℕ → Type 0 };

    /// The moment, as the number of changing calls that were made or stopped in.
    ghost moment: { Self → ℕ };

    /// What a crash at some moment from that one on might have left, during a call or between two.
    ghost left_since: { Self → ℕ → List ℕ → Type 0 };

    /// How often it has failed.
    ghost fault_count: { Self → ℕ };

    /// It is the same disk, and between its two states it was only called.
    ghost grows: { Self → Self → Type 0 };

    fn faults(&self) -> u64
        ensures { result ≡ fault_count self.now };

    fn len(&mut self) -> Result<u64, Failed>
        ensures len { told → IfOk result (λ n. n ≡ length (seen self.old)) }
        ensures seen { told → seen self.new ≡ seen self.old }
        ensures crash { told → (c : List ℕ) → may_leave self.new c → may_leave self.old c }
        ensures time { told → Elapses (moment self.old) (moment self.new) (left_since self.old) (left_since self.new) (may_leave self.new) }
        ensures still { told → moment self.new ≡ moment self.old }
        ensures grows { grows self.old self.new }
        ensures cause { CountsFailure (fault_count self.old) (fault_count self.new) result }
        ensures quiet { OnOk result (fault_count self.new ≡ fault_count self.old) };

    fn read(&mut self, at: u64, into: &mut [u8]) -> Result<(), Failed>
        requires { told → at + length into.old ≤ length (seen self.old) }
        ensures bytes { told → OnOk result (into.new ≡ take (length into.old) (drop at (seen self.old))) }
        ensures seen { told → seen self.new ≡ seen self.old }
        ensures crash { told → (c : List ℕ) → may_leave self.new c → may_leave self.old c }
        ensures time { told → Elapses (moment self.old) (moment self.new) (left_since self.old) (left_since self.new) (may_leave self.new) }
        ensures still { told → moment self.new ≡ moment self.old }
        ensures grows { grows self.old self.new }
        ensures cause { CountsFailure (fault_count self.old) (fault_count self.new) result }
        ensures quiet { OnOk result (fault_count self.new ≡ fault_count self.old) };

    /// Writes over what is there, and past the end. Until a sync, a crash may leave any bytes in the range.
    fn write_at(&mut self, at: u64, bytes: &[u8]) -> Result<(), Failed>
        requires { told → at ≤ length (seen self.old) }
        ensures written { told → OnOk result (seen self.new ≡ overwritten (seen self.old) at bytes.now) }
        ensures crash { told → Follows (Torn at (length bytes.now)) (may_leave self.old) (may_leave self.new) }
        ensures time { told → Elapses (moment self.old) (moment self.new) (left_since self.old) (left_since self.new) (may_leave self.new) }
        ensures one { told → Counts 1 (moment self.old) (moment self.new) result }
        ensures grows { grows self.old self.new }
        ensures cause { CountsFailure (fault_count self.old) (fault_count self.new) result }
        ensures quiet { OnOk result (fault_count self.new ≡ fault_count self.old) };

    fn cut(&mut self, len: u64) -> Result<(), Failed>
        requires { told → len ≤ length (seen self.old) }
        ensures cut { told → OnOk result (seen self.new ≡ take len (seen self.old)) }
        ensures crash { told → Follows (Cut len) (may_leave self.old) (may_leave self.new) }
        ensures time { told → Elapses (moment self.old) (moment self.new) (left_since self.old) (left_since self.new) (may_leave self.new) }
        ensures one { told → Counts 1 (moment self.old) (moment self.new) result }
        ensures grows { grows self.old self.new }
        ensures cause { CountsFailure (fault_count self.old) (fault_count self.new) result }
        ensures quiet { OnOk result (fault_count self.new ≡ fault_count self.old) };

    /// After it, a crash leaves what reads give.
    fn sync(&mut self) -> Result<(), Failed>
        ensures durable { told → OnOk result (Only (seen self.old) (may_leave self.new)) }
        ensures seen { told → OnOk result (seen self.new ≡ seen self.old) }
        ensures crash { told → (c : List ℕ) → may_leave self.new c → may_leave self.old c }
        ensures time { told → Elapses (moment self.old) (moment self.new) (left_since self.old) (left_since self.new) (may_leave self.new) }
        ensures one { told → Counts 1 (moment self.old) (moment self.new) result }
        ensures grows { grows self.old self.new }
        ensures cause { CountsFailure (fault_count self.old) (fault_count self.new) result }
        ensures quiet { OnOk result (fault_count self.new ≡ fault_count self.old) };

    /// A run of calls goes on as another one.
    ghost growing: { Growing Self grows };

    /// A length ends below 2^63.
    ghost is_short: { told → (disk : Self) → length (seen disk) < 2 ^ 63 };

    /// What reads give is one of the outcomes of a crash.
    ghost seen_may_stay: { told → (disk : Self) → may_leave disk (seen disk) };

    /// This moment is one of those since an earlier one.
    ghost counts_now: { told → (disk : Self) (t : ℕ) (c : List ℕ) → t ≤ moment disk → may_leave disk c → left_since disk t c };

    /// Since this moment there is no other.
    ghost only_now: { told → (disk : Self) (c : List ℕ) → left_since disk (moment disk) c → may_leave disk c };
}
