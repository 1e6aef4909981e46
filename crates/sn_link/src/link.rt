//! A link in memory to a server that it owns.

ghost use Rattle.std.specs.Prelude.{◌≡◌, ◌≤◌, ◌∷◌, [], length, Some, IfOk, IsErrOf};
ghost use Rattle.sn_io.specs.Causes.{Rose};
ghost use Rattle.sn_link.specs.Deliveries.{IsSoundHeld};

use crate::delivery::Held;
use crate::keeper::Keeper;
use crate::losses::{Losses, Lost};
use sn_net::{AskError, Link};
use sn_string::Text;
use std::alloc::Global;

/// Asks the server that it owns: each request is a connection of its own, at which one message is served at the moment that is
/// set. Between them the server stays open. It goes to any host.
///
/// A request or its answer is lost where that is set. Else a request fails only where the server's disk has failed. An answer that
/// there is no room for is want of memory.
#[derive(Drop)]
pub struct ServingLink {
    host: Text,
    keeper: Keeper,
    now: u64,
    losses: Losses,
    // Of the next exchange.
    number: u64,
    faults: u64,
}

impl ServingLink {
    ghost use Rattle.std.specs.Prelude.{ℕ, IfSome, IsErr, None};
    ghost use Rattle.sn_link.specs.Deliveries.{Reaches, Standing};
    ghost use Rattle.sn_link.specs.Holdings.{GoesOn, HoldsIn, IsSoundIn};
    ghost use Rattle.sn_link.specs.Links.{AsksAgain, Does, link_held, link_losses, link_now, link_number};
    ghost use Rattle.sn_net.specs.Exchanges.{answer_of};

    /// A link to this server, whose clock gives this moment.
    pub fn new(held: Held, now: u64, losses: Losses) -> ServingLink
        requires { IsSoundHeld held }
        ensures held { link_held result ≡ Some held }
        ensures now { link_now result ≡ now }
        ensures losses { link_losses result ≡ losses }
        ensures number { link_number result ≡ 1 }
        ensures host { result.host ≡ [] }
        ensures faults { result.faults ≡ 0 }
    {
        ServingLink {
            host: Text::fixed(""),
            keeper: Keeper::new(held),
            now,
            losses,
            number: 1,
            faults: 0,
        }
    }

    /// Sets the moment that the server's clock gives.
    pub fn set_now(&mut self, now: u64)
        ensures now { link_now self.new ≡ now }
        ensures held { link_held self.new ≡ link_held self.old }
        ensures losses { link_losses self.new ≡ link_losses self.old }
        ensures number { link_number self.new ≡ link_number self.old }
        ensures host { self.new.host ≡ self.old.host }
        ensures faults { self.new.faults ≡ self.old.faults }
    {
        self.now = now;
    }

    /// Sets what is to be lost. The next exchange is number 1.
    pub fn set_losses(&mut self, losses: Losses)
        ensures losses { link_losses self.new ≡ losses }
        ensures number { link_number self.new ≡ 1 }
        ensures held { link_held self.new ≡ link_held self.old }
        ensures now { link_now self.new ≡ link_now self.old }
        ensures host { self.new.host ≡ self.old.host }
        ensures faults { self.new.faults ≡ self.old.faults }
    {
        self.losses = losses;
        self.number = 1;
    }

    /// The server, or its disk where that failed.
    pub fn held(&self) -> Option<&Held>
        ensures some { IfSome result (λ held. link_held self.entry.now ≡ Some held.now) }
        ensures none { result ≡ None → link_held self.entry.now ≡ None }
    {
        self.keeper.held()
    }

    /// Gives it back.
    pub fn into_held(self) -> Option<Held>
        ensures held { result ≡ link_held self }
        ensures sound { IsSoundIn result }
    {
        self.keeper.into_held()
    }

    /// Delivers a request late or again, beside the exchanges, and gives what is answered, which no device hears.
    pub fn deliver_again(&mut self, alloc: Global, request: &[u8]) -> Result<Vec<u8>, AskError>
        ensures again { AsksAgain self.old self.new request.now (answer_of result) }
        ensures reaches { (was : Standing) → HoldsIn (link_held self.old) was → (next : Standing) × HoldsIn (link_held self.new) next
            × Reaches (link_now self.old) was request.now next result }
        ensures host { self.new.host ≡ self.old.host }
        ensures faults { self.new.faults ≡ self.old.faults }
    {
        self.deliver(alloc, request)
    }

    // Serves a request, and gives what is answered.
    fn deliver(&mut self, alloc: Global, request: &[u8]) -> Result<Vec<u8>, AskError>
        ensures reaches { (was : Standing) → HoldsIn (link_held self.old) was → (next : Standing) × HoldsIn (link_held self.new) next
            × Reaches (link_now self.old) was request.now next result }
        ensures goes_on { GoesOn (link_held self.old) (link_held self.new) }
        ensures now { link_now self.new ≡ link_now self.old }
        ensures losses { link_losses self.new ≡ link_losses self.old }
        ensures number { link_number self.new ≡ link_number self.old }
        ensures host { self.new.host ≡ self.old.host }
        ensures faults { self.new.faults ≡ self.old.faults }
    {
        self.keeper.deliver(alloc, self.now, request)
    }

    // Serves a request whose answer arrives, if it fits.
    fn heard(&mut self, alloc: Global, request: &[u8], room: usize) -> Result<Vec<u8>, AskError>
        ensures does { Does Lost.Nothing self.old.host self.old self.new request.now result }
        ensures room { IfOk result (λ answer. length answer.items ≤ room) }
        ensures host { self.new.host ≡ self.old.host }
        ensures fault { IsErrOf result AskError.Failed → Rose self.old.faults self.new.faults }
        ensures later { self.old.faults ≤ self.new.faults }
    {
        match self.deliver(alloc, request) {
            Ok(answer) if answer.len() <= room => Ok(answer),
            Ok(_long) => Err(AskError::Memory),
            Err(AskError::Failed) => Err(self.fail()),
            Err(AskError::Memory) => Err(AskError::Memory),
        }
    }

    // Serves a request whose answer is lost.
    fn unheard(&mut self, alloc: Global, bytes: &[u8]) -> Result<Vec<u8>, AskError>
        ensures does { Does Lost.Reply self.old.host self.old self.new bytes.now result }
        ensures none { IsErr result }
        ensures host { self.new.host ≡ self.old.host }
        ensures fault { IsErrOf result AskError.Failed → Rose self.old.faults self.new.faults }
        ensures later { self.old.faults ≤ self.new.faults }
    {
        match self.deliver(alloc, bytes) {
            Ok(_) => Err(self.fail()),
            Err(AskError::Failed) => Err(self.fail()),
            Err(AskError::Memory) => Err(AskError::Memory),
        }
    }

    fn fail(&mut self) -> AskError
        ensures is { result ≡ AskError.Failed }
        ensures rose { Rose self.old.faults self.new.faults }
        ensures later { self.old.faults ≤ self.new.faults }
        ensures held { link_held self.new ≡ link_held self.old }
        ensures now { link_now self.new ≡ link_now self.old }
        ensures losses { link_losses self.new ≡ link_losses self.old }
        ensures number { link_number self.new ≡ link_number self.old }
        ensures host { self.new.host ≡ self.old.host }
    {
        self.faults = self.faults.saturating_add(1);
        AskError::Failed
    }
}

impl Link for ServingLink {
    ghost use Rattle.sn_link.specs.Deliveries.{Standing};
    ghost use Rattle.sn_link.specs.Holdings.{HoldsIn};
    ghost use Rattle.sn_link.specs.Links.{Asks, Befalls, HasReason, asking, link_held, link_losses, link_now, link_number};
    ghost use Rattle.sn_link.specs.Losses.{lost_at};
    ghost use Rattle.sn_net.specs.Exchanges.{answer_of};

    ghost asks = { Asks };

    ghost aimed = { λ l. l.host };

    ghost fault_count = { λ l. l.faults };

    ghost asking = { asking };

    fn faults(&self) -> u64 {
        self.faults
    }

    fn aim(&mut self, alloc: Global, host: &str) -> Result<(), AskError> {
        self.host = Text::of(alloc, host)?;
        Ok(())
    }

    fn host(&self) -> &str {
        self.host.as_str()
    }

    fn ask(&mut self, alloc: Global, request: &[u8], room: usize) -> Result<Vec<u8>, AskError>
        ensures asks { Asks self.old self.new (record { host = self.old.host; request = request.now; answer = answer_of result } ∷ []) }
        ensures room { IfOk result (λ answer. length answer.items ≤ room) }
        ensures aimed { self.new.host ≡ self.old.host }
        ensures fault { IsErrOf result AskError.Failed → Rose self.old.faults self.new.faults }
        ensures later { self.old.faults ≤ self.new.faults }
        // What it does to the server, by what is lost of it; and why the link failed, where it did.
        ensures does { (was : Standing) → HoldsIn (link_held self.old) was → (next : Standing) × HoldsIn (link_held self.new) next
            × Befalls (lost_at (link_losses self.old) (link_number self.old)) (link_now self.old) was (record { host = self.old.host; request = request.now; answer = answer_of result }) next
            × HasReason (lost_at (link_losses self.old) (link_number self.old)) (link_now self.old) was request.now next result }
    {
        let lost = self.losses.at(self.number);
        self.number = self.number.saturating_add(1);
        match lost {
            Lost::Request => Err(self.fail()),
            Lost::Reply => self.unheard(alloc, request),
            Lost::Nothing => self.heard(alloc, request, room),
        }
    }
}
