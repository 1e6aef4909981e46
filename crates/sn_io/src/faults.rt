// A failed call, and the plan by which an object in memory fails.
ghost use Rattle.std.specs.Prelude.{◌≡◌, ◌↔◌, IsTrue, IsErr, IfOk};
ghost use Rattle.sn_io.specs.Causes.{CountsFailure, IsRise};
ghost use Rattle.sn_io.specs.FaultPlan.{fresh, is_listed, began, failed, wanted};

use std::alloc::{AllocError, Global};
use std::marker::Model;
use thiserror::Error;

/// A call of the outside failed. The count of faults of its object tells so.
#[derive(Clone, Copy, Debug, PartialEq, Eq, Error)]
#[error("a call of the outside failed")]
pub struct Failed;

/// Which calls of an object in memory are to fail, and how many were made and have failed.
///
/// Calls are numbered from 0. A second count, `wants`, stands for want of memory. Each count stands still at
/// `u64::MAX`.
#[derive(Debug, Drop)]
pub struct FaultPlan {
    listed: Vec<u64>,
    calls: u64,
    faults: u64,
    wants: u64,
}

impl Model for FaultPlan {
    ghost use Rattle.sn_io.specs.FaultPlan.{Plan};

    ghost Value = { Plan };

    ghost view = { λ p. record { listed = p.listed.items; calls = p.calls; faults = p.faults; wants = p.wants } };
}

impl FaultPlan {
    /// The calls of these numbers are to fail, and none has been made.
    pub fn new(listed: Vec<u64>) -> FaultPlan
        ensures { result ≡ fresh listed.items }
    {
        FaultPlan {
            listed,
            calls: 0,
            faults: 0,
            wants: 0,
        }
    }

    /// A plan that goes on as this one does.
    pub fn copy(&self, alloc: Global) -> Result<FaultPlan, AllocError>
        ensures { IfOk result (λ plan. plan ≡ self.now) }
    {
        Ok(FaultPlan {
            listed: self.listed.to_vec(alloc)?,
            calls: self.calls,
            faults: self.faults,
            wants: self.wants,
        })
    }

    /// How often a call has failed.
    pub fn faults(&self) -> u64
        ensures { result ≡ self.now.faults }
    {
        self.faults
    }

    /// How often a call has failed for want of memory.
    pub fn wants(&self) -> u64
        ensures { result ≡ self.now.wants }
    {
        self.wants
    }

    /// Counts a call, which fails where it is listed.
    pub fn begin(&mut self) -> Result<(), Failed>
        ensures listed { IsErr result ↔ IsTrue (is_listed self.old) }
        ensures counts { self.new ≡ began self.old }
        ensures cause { CountsFailure self.old.faults self.new.faults result }
    {
        let fails = self.listed.contains(&self.calls);
        self.calls = self.calls.saturating_add(1);
        if fails {
            self.faults = self.faults.saturating_add(1);
            return Err(Failed);
        }
        Ok(())
    }

    /// Counts a fault of the call that has begun.
    pub fn fail(&mut self) -> Failed
        ensures counts { self.new ≡ failed self.old }
        ensures cause { IsRise self.old.faults self.new.faults }
    {
        self.faults = self.faults.saturating_add(1);
        Failed
    }

    /// Counts a fault for want of memory, of the call that has begun.
    pub fn want(&mut self) -> Failed
        ensures counts { self.new ≡ wanted self.old }
        ensures cause { IsRise self.old.faults self.new.faults }
    {
        self.wants = self.wants.saturating_add(1);
        self.faults = self.faults.saturating_add(1);
        Failed
    }
}
