// A link in memory.
ghost use Rattle.std.specs.Prelude.{◌≡◌, ◌⊎◌, ◌≤◌, ◌∷◌, ◌++◌, [], length, Err, IfOk, IsErrOf, IsTrue, OnErr};
ghost use Rattle.sn_io.specs.Causes.{Rose};
ghost use Rattle.sn_io.specs.FaultPlan.{fresh, is_listed};

use crate::{AskError, Link};
use sn_io::FaultPlan;
use sn_string::{Bytes, Text, TryClone};
use std::alloc::Global;

/// A request that was answered, and the host that it went to.
#[derive(Debug, Drop)]
pub struct Asked {
    pub host: Text,
    pub request: Bytes,
}

/// Gives the answers that it was made with, in turn, and keeps the requests that were answered. A request fails where
/// the call is listed, where no answer is left, and where the next one doesn't fit.
#[derive(Debug, Drop)]
pub struct MemLink {
    host: Text,
    answers: Vec<Bytes>,
    asked: Vec<Asked>,
    plan: FaultPlan,
}

impl MemLink {
    ghost use Rattle.sn_net.specs.Links.{CannotAnswer, link_asked, link_left, link_plan};

    /// Gives these answers. The calls of the numbers in `failing`, from 0, fail.
    pub fn new(alloc: Global, answers: Vec<Bytes>, failing: Vec<u64>) -> MemLink
        ensures left { link_left result ≡ answers.items }
        ensures asked { link_asked result ≡ [] }
        ensures plan { link_plan result ≡ fresh failing.items }
    {
        MemLink {
            host: Text::fixed(""),
            answers,
            asked: Vec::new(alloc),
            plan: FaultPlan::new(failing),
        }
    }

    /// The requests that were answered, in order.
    pub fn asked(&self) -> &[Asked]
        ensures { result.now ≡ link_asked self.now }
    {
        &self.asked
    }

    // Keeps the request, and gives the next answer.
    fn answer(&mut self, alloc: Global, request: &[u8], room: usize) -> Result<Vec<u8>, AskError>
        ensures given { IfOk result (λ answer. link_left self.old ≡ answer.items ∷ link_left self.new) }
        ensures kept { IfOk result (λ answer. link_asked self.new ≡ link_asked self.old ++ (record { host = self.old.host; request = request.now }) ∷ []) }
        ensures room { IfOk result (λ answer. length answer.items ≤ room) }
        ensures fails { IsErrOf result AskError.Failed → CannotAnswer (link_left self.old) room }
        ensures stays { OnErr result ((link_left self.new ≡ link_left self.old) × (link_asked self.new ≡ link_asked self.old)) }
        ensures host { self.new.host ≡ self.old.host }
        ensures plan { self.new.plan ≡ self.old.plan }
    {
        let number = self.asked.len();
        if number >= self.answers.len() || self.answers[number].len() > room {
            return Err(AskError::Failed);
        }
        let answer = self.answers[number].as_slice().to_vec(alloc)?;
        let host = self.host.try_clone(alloc)?;
        let request = Bytes::of(alloc, request)?;
        self.asked.reserve(1)?;
        self.asked.push_reserved(Asked { host, request });
        Ok(answer)
    }
}

impl Link for MemLink {
    ghost use Rattle.sn_net.specs.Exchanges.{answer_of};
    ghost use Rattle.sn_net.specs.Links.{Asks, CannotAnswer, asking, link_left, link_plan};

    ghost asks = { Asks };

    ghost aimed = { λ l. l.host };

    ghost fault_count = { λ l. l.plan.faults };

    ghost asking = { asking };

    fn faults(&self) -> u64 {
        self.plan.faults()
    }

    fn aim(&mut self, alloc: Global, host: &str) -> Result<(), AskError> {
        if self.plan.begin().is_err() {
            return Err(AskError::Failed);
        }
        self.host = Text::of(alloc, host)?;
        Ok(())
    }

    fn host(&self) -> &str {
        self.host.as_str()
    }

    fn ask(&mut self, alloc: Global, request: &[u8], room: usize) -> Result<Vec<u8>, AskError>
        ensures asks { Asks self.old self.new (record { host = self.old.host; request = request.now; answer = answer_of result } ∷ []) }
        ensures room { IfOk result (λ answer. length answer.items ≤ room) }
        ensures aimed { self.new.host ≡ self.old.host }
        ensures fault { IsErrOf result AskError.Failed → Rose self.old.plan.faults self.new.plan.faults }
        ensures later { self.old.plan.faults ≤ self.new.plan.faults }
        ensures listed { IsTrue (is_listed (link_plan self.old)) → result ≡ Err AskError.Failed }
        // A fault at a call that isn't listed: no answer is left, or the next one doesn't fit.
        ensures fails { IsErrOf result AskError.Failed → IsTrue (is_listed (link_plan self.old)) ⊎ CannotAnswer (link_left self.old) room }
    {
        if self.plan.begin().is_err() {
            return Err(AskError::Failed);
        }
        match self.answer(alloc, request, room) {
            Ok(answer) => Ok(answer),
            Err(AskError::Failed) => {
                self.plan.fail();
                Err(AskError::Failed)
            }
            Err(AskError::Memory) => Err(AskError::Memory),
        }
    }
}
