//! A link that records.

ghost use Rattle.std.specs.Prelude.{◌≡◌, ◌≤◌, ◌++◌, ◌∷◌, [], length, IfErr, IfOk, IfSome, IsErrOf, OnErr, OnOk, false, true};
ghost use Rattle.sn_io.specs.Causes.{Rose};

use crate::delivered::Delivered;
use crate::exchanged::Exchanged;
use crate::gaining::{answer_copy, copy_of, gained};
use sn_link::ServingLink;
use sn_net::{AskError, Link};
use sn_string::OwnedList;
use std::alloc::Global;

/// A link to a server in memory, and the records of its exchanges.
#[derive(Drop)]
pub struct RecordingLink {
    link: ServingLink,
    // Of the gate behind the server's batches.
    place: u64,
    exchanged: OwnedList<Exchanged>,
    // Whether memory sufficed for each record.
    whole: bool,
}

/// What a link has recorded, and its parts.
#[derive(Drop)]
pub struct Recorded {
    pub link: ServingLink,
    pub place: u64,
    pub exchanged: OwnedList<Exchanged>,
}

impl RecordingLink {
    ghost use Rattle.sn_link.specs.Links.{AsksAgain, link_held};
    ghost use Rattle.sn_net.specs.Exchanges.{answer_of};
    ghost use Rattle.sn_recorder.specs.Recorded.{GainsAgain, HasCauseAgain, HasGained, recorded_link, recorded_place};
    ghost use Rattle.sn_recorder.specs.declared.exchanged.Exchanged.{Exchanged};

    /// Records what is asked over the link. The place is that of the gate behind the batches of its server's store.
    pub fn new(alloc: Global, link: ServingLink, place: u64) -> RecordingLink
        ensures link { recorded_link result ≡ link }
        ensures place { recorded_place result ≡ place }
        ensures none { result.exchanged ≡ [] }
        ensures whole { result.whole ≡ true }
    {
        RecordingLink {
            link,
            place,
            exchanged: OwnedList::new(alloc),
            whole: true,
        }
    }

    /// Its parts, where memory sufficed for each record.
    pub fn into_recorded(self) -> Option<Recorded>
        ensures { IfSome result (λ recorded. (self.whole ≡ true) × (recorded.link ≡ recorded_link self)
            × (recorded.place ≡ recorded_place self) × (recorded.exchanged ≡ self.exchanged)) }
    {
        let RecordingLink {
            link,
            place,
            exchanged,
            whole,
        } = self;
        if !whole {
            return None;
        }
        Some(Recorded {
            link,
            place,
            exchanged,
        })
    }

    /// Delivers a request late or again, beside the exchanges. On an error the records aren't whole any more.
    pub fn deliver_again(&mut self, alloc: Global, request: &[u8]) -> Result<Delivered, AskError>
        ensures again { IfOk result (λ given. AsksAgain (recorded_link self.old) (recorded_link self.new) request.now (Some given.answer)) }
        ensures gains { IfOk result (GainsAgain self.old self.new request.now) }
        ensures whole { OnOk result (self.new.whole ≡ self.old.whole) }
        ensures cause { IfErr result (HasCauseAgain self.old self.new) }
        ensures lost { OnErr result (self.new.whole ≡ false) }
        ensures stays { self.new.exchanged ≡ self.old.exchanged }
        ensures host { self.new.link.host ≡ self.old.link.host }
        ensures faults { self.new.link.faults ≡ self.old.link.faults }
    {
        match self.link.deliver_again(alloc, request) {
            Ok(answer) => self.delivered(alloc, answer),
            Err(error) => {
                self.whole = false;
                Err(error)
            }
        }
    }

    // What came of a request that was just delivered, and answered so.
    fn delivered(&mut self, alloc: Global, answer: Vec<u8>) -> Result<Delivered, AskError>
        ensures link { self.new.link ≡ self.old.link }
        ensures answer { IfOk result (λ given. given.answer ≡ answer.items) }
        ensures gained { IfOk result (λ given. HasGained (link_held self.old.link) self.old.place given.batches self.new.place) }
        ensures whole { OnOk result (self.new.whole ≡ self.old.whole) }
        ensures memory { IfErr result (λ error. error ≡ AskError.Memory) }
        ensures lost { OnErr result (self.new.whole ≡ false) }
        ensures stays { self.new.exchanged ≡ self.old.exchanged }
    {
        match gained(alloc, &self.link, self.place) {
            Some(tail) => {
                self.place = tail.gate;
                Ok(Delivered {
                    answer: OwnedList::of_vec(answer),
                    batches: tail.batches,
                })
            }
            None => {
                self.whole = false;
                Err(AskError::Memory)
            }
        }
    }

    // Records an exchange that was just made, while all those before it were. Where memory is wanting for it, or the server's disk
    // has failed, the records aren't whole any more.
    fn record(&mut self, alloc: Global, request: &[u8], heard: &Result<Vec<u8>, AskError>)
        ensures link { self.new.link ≡ self.old.link }
        ensures before { self.new.whole ≡ true → self.old.whole ≡ true }
        ensures recorded { self.new.whole ≡ true → (made : Exchanged) × (self.new.exchanged ≡ self.old.exchanged ++ made ∷ [])
            × (made.request ≡ request.now) × (made.answer ≡ answer_of heard.now) × HasGained (link_held self.old.link) self.old.place made.batches self.new.place }
    {
        if self.whole {
            self.whole = self.add(alloc, request, heard).is_some();
        }
    }

    // Adds its record, and moves on behind the batches.
    fn add(
        &mut self,
        alloc: Global,
        request: &[u8],
        heard: &Result<Vec<u8>, AskError>,
    ) -> Option<()>
        ensures link { self.new.link ≡ self.old.link }
        ensures recorded { IfSome result (λ _. (made : Exchanged) × (self.new.exchanged ≡ self.old.exchanged ++ made ∷ [])
            × (made.request ≡ request.now) × (made.answer ≡ answer_of heard.now) × HasGained (link_held self.old.link) self.old.place made.batches self.new.place) }
    {
        let (made, place) = self.made(alloc, request, heard)?;
        match self.exchanged.push(made) {
            Ok(()) => {
                self.place = place;
                Some(())
            }
            Err(_) => None,
        }
    }

    // Its record, and the place behind its batches.
    fn made(
        &self,
        alloc: Global,
        request: &[u8],
        heard: &Result<Vec<u8>, AskError>,
    ) -> Option<(Exchanged, u64)>
        ensures { IfSome result (λ found. (found.0.request ≡ request.now) × (found.0.answer ≡ answer_of heard.now)
            × HasGained (link_held self.now.link) self.now.place found.0.batches found.1) }
    {
        let Ok(request) = copy_of(alloc, request) else {
            return None;
        };
        let Ok(answer) = answer_copy(alloc, heard) else {
            return None;
        };
        let tail = gained(alloc, &self.link, self.place)?;
        let made = Exchanged {
            request,
            answer,
            batches: tail.batches,
        };
        Some((made, tail.gate))
    }
}

impl Link for RecordingLink {
    ghost use Rattle.sn_recorder.specs.Recorded.{Records, recording};

    ghost asks = { Records };

    ghost aimed = { λ l. l.link.host };

    ghost fault_count = { λ l. l.link.faults };

    ghost asking = { recording };

    fn faults(&self) -> u64 {
        self.link.faults()
    }

    fn aim(&mut self, alloc: Global, host: &str) -> Result<(), AskError> {
        self.link.aim(alloc, host)
    }

    fn host(&self) -> &str {
        self.link.host()
    }

    fn ask(&mut self, alloc: Global, request: &[u8], room: usize) -> Result<Vec<u8>, AskError> {
        let answer = self.link.ask(alloc, request, room);
        self.record(alloc, request, &answer);
        answer
    }
}
