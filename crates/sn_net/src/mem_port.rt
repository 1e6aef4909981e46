// A port in memory.
ghost use Rattle.std.specs.Prelude.{◌≡◌, ◌≢◌, ◌↔◌, ◌<◌, ◌∷◌, ◌++◌, [], IfOk, OnOk, OnErr, IsTrue, IsErr};
ghost use Rattle.std.specs.Vec.{vec_len, vec_capacity};
ghost use Rattle.sn_io.specs.Causes.{CountsFailure};
ghost use Rattle.sn_io.specs.FaultPlan.{fresh, is_listed, began};

use crate::Port;
use sn_io::{Failed, FaultPlan, MemSink, MemSource};
use std::alloc::Global;

/// Connections in memory, which come in order and are kept when they have ended. Taking one fails where the call
/// is listed, where none is left, and in want of memory.
#[derive(Debug, Drop)]
pub struct MemPort {
    waiting: Vec<(MemSource, MemSink)>,
    ended: Vec<(MemSource, MemSink)>,
    free: u16,
    bound: u16,
    plan: FaultPlan,
}

impl MemPort {
    ghost use Rattle.sn_net.specs.Memory.{port_waiting, port_ended, port_plan};

    /// These connections are to come. `free` is the number that the system chooses. The calls of `bind` and `accept`
    /// of the numbers in `failing`, from 0, fail.
    pub fn new(
        alloc: Global,
        connections: Vec<(MemSource, MemSink)>,
        free: u16,
        failing: Vec<u64>,
    ) -> MemPort
        ensures waiting { port_waiting result ≡ connections.items }
        ensures ended { port_ended result ≡ [] }
        ensures free { result.free ≡ free }
        ensures plan { port_plan result ≡ fresh failing.items }
    {
        MemPort {
            waiting: connections,
            ended: Vec::new(alloc),
            free,
            bound: 0,
            plan: FaultPlan::new(failing),
        }
    }

    /// The connections that are to come.
    pub fn waiting(&self) -> &[(MemSource, MemSink)]
        ensures { result.now ≡ port_waiting self.now }
    {
        &self.waiting
    }

    /// The connections that have ended, in order, each with what it has left and what was answered.
    pub fn ended(&self) -> &[(MemSource, MemSink)]
        ensures { result.now ≡ port_ended self.now }
    {
        &self.ended
    }

    /// How often a call has failed for want of memory.
    pub fn wants(&self) -> u64
        ensures { result ≡ (port_plan self.now).wants }
    {
        self.plan.wants()
    }
}

impl Port for MemPort {
    ghost use Rattle.sn_net.specs.Connections.{accepted, ended};
    ghost use Rattle.sn_net.specs.Memory.{port_waiting, port_ended, port_plan, ends_of};
    ghost use Rattle.sn_net.specs.Ports.{Goes, IsNoAccept, going};

    type In = MemSource;

    type Out = MemSink;

    ghost goes = { Goes };

    ghost bound = { λ p. p.bound };

    ghost may_end = { λ p. vec_len p.ended < vec_capacity p.ended };

    ghost fault_count = { λ p. p.plan.faults };

    ghost going = { going };

    fn faults(&self) -> u64 {
        self.plan.faults()
    }

    fn bind(&mut self, number: u16) -> Result<(), Failed>
        ensures bound { OnOk result (number ≢ 0 → self.new.bound ≡ number) }
        ensures goes { Goes self.old self.new [] }
        ensures cause { CountsFailure self.old.plan.faults self.new.plan.faults result }
        ensures listed { IsErr result ↔ IsTrue (is_listed (port_plan self.old)) }
        ensures chosen { OnOk result (number ≡ 0 → self.new.bound ≡ self.old.free) }
        ensures free { self.new.free ≡ self.old.free }
        ensures plan { port_plan self.new ≡ began (port_plan self.old) }
    {
        self.plan.begin()?;
        self.bound = if number == 0 { self.free } else { number };
        Ok(())
    }

    fn number(&self) -> u16 {
        self.bound
    }

    fn accept(&mut self) -> Result<(MemSource, MemSink), Failed>
        ensures accepted { IfOk result (λ ends. Goes self.old self.new (accepted (ends_of ends) ∷ [])) }
        ensures none { OnErr result (Goes self.old self.new []) }
        ensures out { OnOk result (vec_len self.new.ended < vec_capacity self.new.ended) }
        ensures bound { self.new.bound ≡ self.old.bound }
        ensures cause { CountsFailure self.old.plan.faults self.new.plan.faults result }
        // The next connection comes.
        ensures next { IfOk result (λ ends. (port_waiting self.old ≡ ends ∷ port_waiting self.new)) }
        ensures plan { OnOk result (port_plan self.new ≡ began (port_plan self.old)) }
        ensures listed { IsTrue (is_listed (port_plan self.old)) → IsErr result }
        ensures fails { OnErr result (IsNoAccept (port_waiting self.old) (port_plan self.old) (port_plan self.new)) }
    {
        self.plan.begin()?;
        if self.waiting.is_empty() {
            return Err(self.plan.fail());
        }
        if self.ended.reserve(1).is_err() {
            return Err(self.plan.want());
        }
        Ok(self.waiting.remove(0))
    }

    fn end(&mut self, source: MemSource, sink: MemSink)
        requires { vec_len self.old.ended < vec_capacity self.old.ended }
        ensures ended { Goes self.old self.new (ended (ends_of (source, sink)) ∷ []) }
        ensures bound { self.new.bound ≡ self.old.bound }
        ensures faults { self.new.plan.faults ≡ self.old.plan.faults }
        ensures kept { port_ended self.new ≡ port_ended self.old ++ (source, sink) ∷ [] }
    {
        self.ended.push_reserved((source, sink));
    }
}
