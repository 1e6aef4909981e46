// A disk in memory.
ghost use Rattle.std.specs.Prelude.{◌≡◌, ◌⊎◌, ◌↔◌, ◌+◌, ◌<◌, ◌≤◌, ◌^◌, [], List, ℕ, length, reverse, take, drop, IfOk, OnOk, OnErr, IsTrue, Some, false};
ghost use Rattle.sn_io.specs.Causes.{CountsFailure, IsRise};
ghost use Rattle.sn_io.specs.FaultPlan.{fresh, began, failed, wanted};
ghost use Rattle.sn_disk.specs.Disk.{overwritten, Torn, Cut, Follows, Elapses, Counts, Only};
ghost use Rattle.sn_disk.specs.Record.{Fits, step_of};
ghost use Rattle.sn_disk.specs.Steps.{write_step, cut_step, sync_step, StepLeaves, Leaves, LeftSince, IsKept, IsCall, ends_in_stop};
ghost use Rattle.sn_disk.specs.Images.{image_now, due};
ghost use Rattle.sn_disk.specs.Courses.{Does, StopsIn};

use crate::calls::Call;
use crate::history::History;
use crate::images::{image_due, one_call_nearer};
use crate::{CrashImage, Disk, Stop};
use sn_io::{Failed, FaultPlan};
use std::alloc::{AllocError, Global};

/// A disk in memory. It keeps a record of its changing calls, from which what a crash may leave is known.
///
/// A call fails where it is listed, where the disk has stopped or stops in it, and in want of memory.
#[derive(Debug, Drop)]
pub struct MemDisk {
    alloc: Global,
    history: History,
    plan: FaultPlan,
    stop: Stop,
    stopped: bool,
    ghost kept: { IsKept history },
    ghost short: { length history.bytes < 2 ^ 63 },
    ghost left: { IsTrue stopped → IsTrue (ends_in_stop (reverse history.steps)) },
    ghost small: { (plan.calls < 2 ^ 64) × (plan.wants < 2 ^ 64) },
}

impl MemDisk {
    ghost use Rattle.sn_disk.specs.MemDisk.{disk_told, disk_plan, disk_stop, disk_stopped, disk_state, HasStopSet, BeginsCall, RefusesCall, IsWanting, IsStopping, Grows};

    /// A disk of these bytes. The calls of the numbers in `failing`, from 0, fail.
    pub fn new(alloc: Global, bytes: Vec<u8>, failing: Vec<u64>) -> Result<MemDisk, AllocError>
        ensures state { IfOk result (λ disk. disk_state disk ≡ record { told = record { start = bytes.items; bytes = bytes.items; steps = [] }; stop = Stop.Never; stopped = false }) }
        ensures plan { IfOk result (λ disk. disk_plan disk ≡ fresh failing.items) }
    {
        Ok(MemDisk {
            alloc,
            history: History::new(alloc, bytes)?,
            plan: FaultPlan::new(failing),
            stop: Stop::Never,
            stopped: false,
        })
    }

    /// A disk that goes on as this one does.
    pub fn copy(&self, alloc: Global) -> Result<MemDisk, AllocError>
        ensures state { IfOk result (λ disk. disk_state disk ≡ disk_state self.now) }
        ensures plan { IfOk result (λ disk. disk_plan disk ≡ disk_plan self.now) }
    {
        Ok(MemDisk {
            alloc,
            history: self.history.copy(alloc)?,
            plan: self.plan.copy(alloc)?,
            stop: self.stop,
            stopped: self.stopped,
        })
    }

    /// Sets whether and when it is to stop. A disk that has stopped goes on with what was left.
    pub fn set_stop(&mut self, stop: Stop)
        ensures { HasStopSet stop self.old self.new }
    {
        self.stop = stop;
        self.stopped = false;
    }

    /// Whether and when it is to stop.
    pub fn stop(&self) -> Stop
        ensures { result ≡ disk_stop self.now }
    {
        self.stop
    }

    /// Whether it has stopped. Then a crash leaves what reads would give, and nothing else.
    pub fn has_stopped(&self) -> bool
        ensures value { result ≡ disk_stopped self.now }
        ensures one { IsTrue result → Only (disk_told self.now).bytes (Leaves (disk_told self.now)) }
    {
        self.stopped
    }

    /// The bytes that reads give.
    pub fn bytes(&self) -> &[u8]
        ensures { result.now ≡ (disk_told self.now).bytes }
    {
        self.history.bytes()
    }

    /// How many changing calls its record has.
    pub fn moment(&self) -> u64
        ensures { result ≡ length (disk_told self.now).steps }
    {
        self.history.moment()
    }

    /// How often a call has failed for want of memory.
    pub fn wants(&self) -> u64
        ensures { result ≡ (disk_plan self.now).wants }
    {
        self.plan.wants()
    }

    /// What a crash now leaves, by this choice.
    pub fn image(&self, alloc: Global, image: CrashImage) -> Result<Vec<u8>, AllocError>
        ensures is { IfOk result (λ bytes. bytes.items ≡ image_now image (disk_told self.now)) }
        ensures left { IfOk result (λ bytes. Leaves (disk_told self.now) bytes.items) }
    {
        self.history.image(alloc, image)
    }

    // Counts a call, which fails if it is listed or the disk has stopped.
    fn begin(&mut self) -> Result<(), Failed>
        ensures cause { CountsFailure self.old.plan.faults self.new.plan.faults result }
        ensures state { disk_state self.new ≡ disk_state self.old }
        ensures grows { Grows self.old self.new }
        ensures begins { OnOk result (BeginsCall self.old self.new) }
        ensures quiet { OnOk result (self.new.plan.faults ≡ self.old.plan.faults) }
        ensures refuses { OnErr result (RefusesCall self.old self.new) }
    {
        self.plan.begin()?;
        if self.stopped {
            return Err(self.plan.fail());
        }
        Ok(())
    }

    // Does a changing call of a disk that hasn't stopped, or stops in it.
    fn change(&mut self, call: Call<'_>) -> Result<(), Failed>
        requires call { IsCall (step_of call) }
        requires fits { Fits self.old.history.bytes call }
        requires awake { disk_stopped self.old ≡ false }
        ensures crash { Follows (StepLeaves (step_of call.entry)) (Leaves self.old.history) (Leaves self.new.history) }
        ensures time { Elapses (length self.old.history.steps) (length self.new.history.steps) (LeftSince self.old.history) (LeftSince self.new.history) (Leaves self.new.history) }
        ensures one { Counts 1 (length self.old.history.steps) (length self.new.history.steps) result }
        ensures grows { Grows self.old self.new }
        ensures cause { CountsFailure self.old.plan.faults self.new.plan.faults result }
        ensures done { OnOk result (Does (disk_state self.old) (step_of call.entry) (disk_state self.new) × (disk_plan self.new ≡ disk_plan self.old)) }
        ensures fails { OnErr result (IsWanting self.old self.new ⊎ IsStopping (step_of call.entry) self.old self.new) }
    {
        if let Some(image) = image_due(self.stop) {
            return Err(self.stop_in(call, image));
        }
        match self.history.make(self.alloc, call) {
            Ok(()) => {
                self.stop = one_call_nearer(self.stop);
                Ok(())
            }
            Err(_) => Err(self.plan.want()),
        }
    }

    // Stops in a changing call.
    fn stop_in(&mut self, call: Call<'_>, image: CrashImage) -> Failed
        requires call { IsCall (step_of call) }
        requires awake { disk_stopped self.old ≡ false }
        requires due { due self.old.stop ≡ Some image }
        ensures crash { Follows (StepLeaves (step_of call.entry)) (Leaves self.old.history) (Leaves self.new.history) }
        ensures time { Elapses (length self.old.history.steps) (length self.new.history.steps) (LeftSince self.old.history) (LeftSince self.new.history) (Leaves self.new.history) }
        ensures most { length self.new.history.steps ≤ length self.old.history.steps + 1 }
        ensures grows { Grows self.old self.new }
        ensures cause { IsRise self.old.plan.faults self.new.plan.faults }
        ensures fails { IsWanting self.old self.new ⊎ IsStopping (step_of call.entry) self.old self.new }
    {
        let Ok(left) = self.history.image_in(self.alloc, image, call) else {
            return self.plan.want();
        };
        match self.history.stop(left) {
            Ok(()) => {
                self.stop = Stop::Never;
                self.stopped = true;
                self.plan.fail()
            }
            Err(_) => self.plan.want(),
        }
    }
}

impl Disk for MemDisk {
    ghost use Rattle.sn_disk.specs.Laws.{kept_stays, now_counts, now_only};
    ghost use Rattle.sn_disk.specs.Growth.{grows_same, grows_on};
    ghost use Rattle.sn_disk.specs.MemDisk.{ReadEnds, ChangeEnds, Grows};

    ghost told = { Unit {0} };

    ghost seen = { λ d. d.history.bytes };

    ghost may_leave = { λ d. Leaves d.history };

    ghost moment = { λ d. length d.history.steps };

    ghost left_since = { λ d. LeftSince d.history };

    ghost fault_count = { λ d. d.plan.faults };

    ghost grows = { Grows };

    ghost growing = { record { same = grows_same; on = grows_on } };

    ghost is_short = { λ _ d. d.short };

    ghost seen_may_stay = { λ _ d. kept_stays d.history d.kept };

    ghost counts_now = { λ _ d. now_counts d.history };

    ghost only_now = { λ _ d. now_only d.history };

    fn faults(&self) -> u64 {
        self.plan.faults()
    }

    fn len(&mut self) -> Result<u64, Failed>
        ensures len { Unit {0} → IfOk result (λ n. n ≡ length self.old.history.bytes) }
        ensures seen { Unit {0} → self.new.history.bytes ≡ self.old.history.bytes }
        ensures crash { Unit {0} → (c : List ℕ) → Leaves self.new.history c → Leaves self.old.history c }
        ensures time { Unit {0} → Elapses (length self.old.history.steps) (length self.new.history.steps) (LeftSince self.old.history) (LeftSince self.new.history) (Leaves self.new.history) }
        ensures still { Unit {0} → length self.new.history.steps ≡ length self.old.history.steps }
        ensures grows { Grows self.old self.new }
        ensures cause { CountsFailure self.old.plan.faults self.new.plan.faults result }
        ensures quiet { OnOk result (self.new.plan.faults ≡ self.old.plan.faults) }
        ensures ends { ReadEnds self.old self.new result }
    {
        self.begin()?;
        Ok(self.history.bytes().len() as u64)
    }

    fn read(&mut self, at: u64, into: &mut [u8]) -> Result<(), Failed>
        requires { Unit {0} → at + length into.old ≤ length self.old.history.bytes }
        ensures bytes { Unit {0} → OnOk result (into.new ≡ take (length into.old) (drop at self.old.history.bytes)) }
        ensures seen { Unit {0} → self.new.history.bytes ≡ self.old.history.bytes }
        ensures crash { Unit {0} → (c : List ℕ) → Leaves self.new.history c → Leaves self.old.history c }
        ensures time { Unit {0} → Elapses (length self.old.history.steps) (length self.new.history.steps) (LeftSince self.old.history) (LeftSince self.new.history) (Leaves self.new.history) }
        ensures still { Unit {0} → length self.new.history.steps ≡ length self.old.history.steps }
        ensures grows { Grows self.old self.new }
        ensures cause { CountsFailure self.old.plan.faults self.new.plan.faults result }
        ensures quiet { OnOk result (self.new.plan.faults ≡ self.old.plan.faults) }
        ensures ends { ReadEnds self.old self.new result }
    {
        self.begin()?;
        let from = at as usize;
        into.copy_from_slice(&self.history.bytes()[from..from + into.len()]);
        Ok(())
    }

    fn write_at(&mut self, at: u64, bytes: &[u8]) -> Result<(), Failed>
        requires { Unit {0} → at ≤ length self.old.history.bytes }
        ensures written { Unit {0} → OnOk result (self.new.history.bytes ≡ overwritten self.old.history.bytes at bytes.now) }
        ensures crash { Unit {0} → Follows (Torn at (length bytes.now)) (Leaves self.old.history) (Leaves self.new.history) }
        ensures time { Unit {0} → Elapses (length self.old.history.steps) (length self.new.history.steps) (LeftSince self.old.history) (LeftSince self.new.history) (Leaves self.new.history) }
        ensures one { Unit {0} → Counts 1 (length self.old.history.steps) (length self.new.history.steps) result }
        ensures grows { Grows self.old self.new }
        ensures cause { CountsFailure self.old.plan.faults self.new.plan.faults result }
        ensures quiet { OnOk result (self.new.plan.faults ≡ self.old.plan.faults) }
        ensures ends { ChangeEnds (write_step at bytes.now) self.old self.new result }
    {
        self.begin()?;
        self.change(Call::Write { at, bytes })
    }

    fn cut(&mut self, len: u64) -> Result<(), Failed>
        requires { Unit {0} → len ≤ length self.old.history.bytes }
        ensures cut { Unit {0} → OnOk result (self.new.history.bytes ≡ take len self.old.history.bytes) }
        ensures crash { Unit {0} → Follows (Cut len) (Leaves self.old.history) (Leaves self.new.history) }
        ensures time { Unit {0} → Elapses (length self.old.history.steps) (length self.new.history.steps) (LeftSince self.old.history) (LeftSince self.new.history) (Leaves self.new.history) }
        ensures one { Unit {0} → Counts 1 (length self.old.history.steps) (length self.new.history.steps) result }
        ensures grows { Grows self.old self.new }
        ensures cause { CountsFailure self.old.plan.faults self.new.plan.faults result }
        ensures quiet { OnOk result (self.new.plan.faults ≡ self.old.plan.faults) }
        ensures ends { ChangeEnds (cut_step len) self.old self.new result }
    {
        self.begin()?;
        self.change(Call::Cut { len })
    }

    fn sync(&mut self) -> Result<(), Failed>
        ensures durable { Unit {0} → OnOk result (Only self.old.history.bytes (Leaves self.new.history)) }
        ensures seen { Unit {0} → OnOk result (self.new.history.bytes ≡ self.old.history.bytes) }
        ensures crash { Unit {0} → (c : List ℕ) → Leaves self.new.history c → Leaves self.old.history c }
        ensures time { Unit {0} → Elapses (length self.old.history.steps) (length self.new.history.steps) (LeftSince self.old.history) (LeftSince self.new.history) (Leaves self.new.history) }
        ensures one { Unit {0} → Counts 1 (length self.old.history.steps) (length self.new.history.steps) result }
        ensures grows { Grows self.old self.new }
        ensures cause { CountsFailure self.old.plan.faults self.new.plan.faults result }
        ensures quiet { OnOk result (self.new.plan.faults ≡ self.old.plan.faults) }
        ensures ends { ChangeEnds sync_step self.old self.new result }
    {
        self.begin()?;
        self.change(Call::Sync)
    }
}
