//! A session over one connection: messages from a source, and their answers into a sink, each after its commit.

ghost use Rattle.std.specs.Prelude.{◌≤◌, OnErr, OnOk};
ghost use Rattle.std.specs.Io.KnownBytes.{Appends};
ghost use Rattle.sn_io.specs.Causes.{CountsFailure};
ghost use Rattle.sn_io.specs.Streams.{TakesPart};
ghost use Rattle.sn_server.specs.CheckBodies.{check_bytes};
ghost use Rattle.sn_server.specs.Replies.{reply_bytes};

use crate::handling::Replied;
use crate::reply::{Reply, check_body};
use crate::server::Server;
use sn_disk::Disk;
use sn_http::{Carry, Incoming, Message, WriteFault, read_message, write_answer};
use sn_io::{Sink, Source};
use sn_net::Clock;

/// How a session ended.
#[derive(Clone, Copy, Debug, PartialEq, Eq)]
pub enum Ended {
    /// The input was over between two messages, or the connection closes behind the last answer.
    End,
    /// The message that begins at this byte of the input fails a check, and was answered so.
    Broken { place: u64 },
    /// So many answers were written as were asked for.
    Budget,
    ReadFault,
    WriteFault,
    /// Memory was wanting for a message.
    Memory,
}

/// What became of a session at a server `S` on a disk `D`. The number is that of the answers written whole.
#[derive(Drop)]
pub enum Session<S, D> {
    Over(S, Ended, u64),
    /// The disk failed, and is to be loaded again: it has all that the last message changes or none.
    Broken(D),
}

// What became of one message.
#[derive(Drop)]
pub(crate) enum One<S, D> {
    /// It was answered; whether the connection closes.
    Served(S, bool),
    /// The one at this place fails a check, and was answered so.
    Checked(S, u64),
    Over(S, Ended),
    Lost(D),
}

impl<D: Disk> Server<D> {
    ghost use Rattle.std.specs.Prelude.{List, ℕ};
    ghost use Rattle.std.specs.declared.option.Option.{Option};
    ghost use Rattle.std.specs.Str.{IsUtf8};
    ghost use Rattle.sn_account.specs.Sound.{IsSound};
    ghost use Rattle.sn_http.specs.Heads.{unread};
    ghost use Rattle.sn_io.specs.Causes.{Rose};
    ghost use Rattle.sn_server.specs.Gaining.{HasGained};
    ghost use Rattle.sn_server.specs.Messages.{MessageEnds};
    ghost use Rattle.sn_server.specs.Outcomes.{IfOver, IfBroken, IfGoes, IfLost, count_of, one_disk, session_disk};
    ghost use Rattle.sn_server.specs.Sessions.{OneEnds, SessionEnds};
    ghost use Rattle.sn_server.specs.Steps.{world};
    ghost use Rattle.sn_server.specs.Stores.{Kept, IsOpen, MayHave, server_disk, server_rows};

    /// Serves the messages of a connection, until as many answers as the budget says were written whole.
    pub fn session<I: Source, O: Sink, C: Clock>(
        self,
        source: &mut I,
        sink: &mut O,
        clock: &mut C,
        budget: u64,
    ) -> Session<Server<D>, D>
        requires sound { IsSound (server_rows self) }
        ensures ends { (kept : Kept) → IsOpen self kept → (place : ℕ) × (left : Option (List ℕ)) × SessionEnds IsOpen (MayHave D.told D.may_leave) kept budget
            (world (I.left source.old) (O.held sink.old) (C.given clock.old) 0 (I.fault_count source.old) (O.fault_count sink.old))
            (world left (O.held sink.new) (C.given clock.new) place (I.fault_count source.new) (O.fault_count sink.new)) result }
        ensures gains { (kept : Kept) → IsOpen self kept → HasGained kept (O.held sink.old) (O.held sink.new) result }
        ensures within { count_of result ≤ budget }
        ensures sound { IfOver result (λ server. IsSound (server_rows server)) }
        ensures fault { IfBroken result (λ disk. Rose (D.fault_count (server_disk self)) (D.fault_count disk)) }
        ensures grows { D.grows (server_disk self) (session_disk server_disk result) }
        ensures later { D.fault_count (server_disk self) ≤ D.fault_count (session_disk server_disk result) }
    {
        let mut carry = Carry::new(self.alloc);
        self.serve_all(source, &mut carry, sink, clock, budget)
    }

    fn serve_all<I: Source, O: Sink, C: Clock>(
        self,
        source: &mut I,
        carry: &mut Carry,
        sink: &mut O,
        clock: &mut C,
        budget: u64,
    ) -> Session<Server<D>, D>
        requires sound { IsSound (server_rows self) }
        ensures ends { (kept : Kept) → IsOpen self kept → SessionEnds IsOpen (MayHave D.told D.may_leave) kept budget
            (world (unread carry.old (I.left source.old)) (O.held sink.old) (C.given clock.old) carry.old.place (I.fault_count source.old) (O.fault_count sink.old))
            (world (unread carry.new (I.left source.new)) (O.held sink.new) (C.given clock.new) carry.new.place (I.fault_count source.new) (O.fault_count sink.new)) result }
        ensures within { count_of result ≤ budget }
        ensures sound { IfOver result (λ server. IsSound (server_rows server)) }
        ensures fault { IfBroken result (λ disk. Rose (D.fault_count (server_disk self)) (D.fault_count disk)) }
        ensures grows { D.grows (server_disk self) (session_disk server_disk result) }
        ensures later { D.fault_count (server_disk self) ≤ D.fault_count (session_disk server_disk result) }
    {
        let mut server = self;
        let mut count = 0;
        'messages: while count < budget {
            match server.serve_next(source, carry, sink, clock) {
                One::Served(next, closing) => {
                    count += 1;
                    if closing {
                        return Session::Over(next, Ended::End, count);
                    }
                    server = next;
                }
                One::Checked(next, place) => {
                    return Session::Over(next, Ended::Broken { place }, count + 1);
                }
                One::Over(next, ended) => return Session::Over(next, ended, count),
                One::Lost(disk) => return Session::Broken(disk),
            }
        }
        Session::Over(server, Ended::Budget, count)
    }

    // Reads one message and serves it.
    fn serve_next<I: Source, O: Sink, C: Clock>(
        self,
        source: &mut I,
        carry: &mut Carry,
        sink: &mut O,
        clock: &mut C,
    ) -> One<Server<D>, D>
        requires sound { IsSound (server_rows self) }
        ensures ends { (kept : Kept) → IsOpen self kept → OneEnds IsOpen (MayHave D.told D.may_leave) kept
            (world (unread carry.old (I.left source.old)) (O.held sink.old) (C.given clock.old) carry.old.place (I.fault_count source.old) (O.fault_count sink.old))
            (world (unread carry.new (I.left source.new)) (O.held sink.new) (C.given clock.new) carry.new.place (I.fault_count source.new) (O.fault_count sink.new)) result }
        ensures sound { IfGoes result (λ server. IsSound (server_rows server)) }
        ensures fault { IfLost result (λ disk. Rose (D.fault_count (server_disk self)) (D.fault_count disk)) }
        ensures grows { D.grows (server_disk self) (one_disk server_disk result) }
        ensures later { D.fault_count (server_disk self) ≤ D.fault_count (one_disk server_disk result) }
    {
        match read_message(self.alloc, source, carry) {
            Incoming::Message(message) => self.serve_message(message, sink, clock),
            Incoming::Check { status, place } => match send_check(sink, status) {
                Ok(()) => One::Checked(self, place),
                Err(WriteFault) => One::Over(self, Ended::WriteFault),
            },
            Incoming::End => One::Over(self, Ended::End),
            Incoming::ReadFault => One::Over(self, Ended::ReadFault),
            Incoming::Memory => One::Over(self, Ended::Memory),
        }
    }

    // Serves a message that was read, at the moment that the clock gives.
    fn serve_message<O: Sink, C: Clock>(
        self,
        message: Message,
        sink: &mut O,
        clock: &mut C,
    ) -> One<Server<D>, D>
        requires sound { IsSound (server_rows self) }
        requires utf8 { IsUtf8 message.token }
        ensures ends { (kept : Kept) → IsOpen self kept → MessageEnds IsOpen (MayHave D.told D.may_leave) kept message (O.held sink.old) (O.held sink.new) (C.given clock.old) (C.given clock.new) (O.fault_count sink.old) (O.fault_count sink.new) result }
        ensures writes { O.fault_count sink.old ≤ O.fault_count sink.new }
        ensures sound { IfGoes result (λ server. IsSound (server_rows server)) }
        ensures fault { IfLost result (λ disk. Rose (D.fault_count (server_disk self)) (D.fault_count disk)) }
        ensures grows { D.grows (server_disk self) (one_disk server_disk result) }
        ensures later { D.fault_count (server_disk self) ≤ D.fault_count (one_disk server_disk result) }
    {
        let now = clock.now();
        let closing = message.closing;
        match self.reply_to(message, now) {
            Replied::Done(server, reply) => match send(sink, &reply) {
                Ok(()) => One::Served(server, closing),
                Err(WriteFault) => One::Over(server, Ended::WriteFault),
            },
            Replied::Broken(disk) => One::Lost(disk),
        }
    }
}

// Writes a reply.
fn send<O: Sink>(sink: &mut O, reply: &Reply) -> Result<(), WriteFault>
    ensures ok { OnOk result (Appends (O.held sink.old) (O.held sink.new) (reply_bytes reply.now)) }
    ensures err { OnErr result (TakesPart (O.held sink.old) (O.held sink.new) (reply_bytes reply.now)) }
    ensures cause { CountsFailure (O.fault_count sink.old) (O.fault_count sink.new) result }
{
    let body = reply.body.as_str().as_bytes();
    write_answer(
        sink,
        reply.status,
        reply.allow.as_str(),
        reply.closing,
        body,
    )
}

// Writes the answer to a message that fails a check.
fn send_check<O: Sink>(sink: &mut O, status: u16) -> Result<(), WriteFault>
    ensures ok { OnOk result (Appends (O.held sink.old) (O.held sink.new) (check_bytes status)) }
    ensures err { OnErr result (TakesPart (O.held sink.old) (O.held sink.new) (check_bytes status)) }
    ensures cause { CountsFailure (O.fault_count sink.old) (O.fault_count sink.new) result }
{
    write_answer(sink, status, "", true, check_body(status).as_bytes())
}
