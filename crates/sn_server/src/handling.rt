//! One request: its rule, its commit, and then its answer.

ghost use Rattle.std.specs.Prelude.{◌≡◌, ◌≤◌, ◌⊎◌, [], All, IfOk, length};
ghost use Rattle.sn_account.specs.Rule.{Rule};
ghost use Rattle.sn_account.specs.Sound.{IsSound};
ghost use Rattle.sn_account.specs.States.{IsUnmarked, state_rows};
ghost use Rattle.sn_journal.specs.Image.{most_payload};
ghost use Rattle.sn_rows.specs.Spelling.{spelled};
ghost use Rattle.sn_rows.specs.Table.{rows_after};
ghost use Rattle.sn_sync.specs.Laws.{FitsRequest};
ghost use Rattle.sn_sync.specs.declared.answer.Answer.{Answer};
ghost use Rattle.sn_table.specs.Batches.{IsOf};
ghost use Rattle.sn_journal.specs.declared.owner.Owner.TheVariants.{Server as ServerOwner};
ghost use Rattle.sn_server.specs.Replies.{IsSent, IsUnserved, no_memory};
ghost use Rattle.sn_server.specs.Sending.{IsTheOr, IsTurnedAway};

use crate::reply::Reply;
use crate::routing::{Turned, request_of};
use crate::server::Server;
use sn_account::{Ruled, State, answer};
use sn_disk::Disk;
use sn_http::Message;
use sn_rows::Change;
use sn_string::{OwnedList, Text};
use sn_sync::{Answer, More, Request};
use sn_table::{CommitError, Committed};
use std::alloc::{AllocError, Global};

/// What became of a request at a server `S` on a disk `D`.
#[derive(Drop)]
pub enum Handled<S, D> {
    /// It was answered, and the server keeps what it changed, also in a crash.
    Done(S, Answer),
    /// The disk failed, and is to be loaded again: it has all that the request changes or none.
    Broken(D),
}

// What became of a message.
#[derive(Drop)]
pub(crate) enum Replied<S, D> {
    Done(S, Reply),
    Broken(D),
}

impl<D: Disk> Server<D> {
    ghost use Rattle.std.specs.Prelude.{◌≤◌};
    ghost use Rattle.std.specs.Str.{IsUtf8};
    ghost use Rattle.sn_io.specs.Causes.{Rose};
    ghost use Rattle.sn_server.specs.Stores.{Kept, IsOpen, MayHave, server_disk, server_rows};
    ghost use Rattle.sn_server.specs.Handling.{IsHandled, IsReplied, IsServed, IfHandled, IfHandledBroken, handled_disk, IfReplied, IfRepliedBroken, replied_disk};

    /// Answers a request at a moment in microseconds since 1970: by the rule, and after the commit of what it changes.
    /// Where memory is wanting nothing changes, and the answer is 503.
    pub fn handle(self, request: Request, now: u64) -> Handled<Server<D>, D>
        requires sound { IsSound (server_rows self) }
        requires within { FitsRequest request }
        ensures handled { (kept : Kept) → IsOpen self kept → IsHandled IsOpen (MayHave D.told D.may_leave) kept request now result }
        ensures sound { IfHandled result (λ server given. IsSound (server_rows server)) }
        ensures fault { IfHandledBroken result (λ disk. Rose (D.fault_count (server_disk self)) (D.fault_count disk)) }
        ensures grows { D.grows (server_disk self) (handled_disk server_disk result) }
        ensures later { D.fault_count (server_disk self) ≤ D.fault_count (handled_disk server_disk result) }
    {
        self.answer_to(&request, now)
    }

    // Answers a request.
    fn answer_to(self, request: &Request, now: u64) -> Handled<Server<D>, D>
        requires sound { IsSound (server_rows self) }
        requires within { FitsRequest request.now }
        ensures handled { (kept : Kept) → IsOpen self kept → IsHandled IsOpen (MayHave D.told D.may_leave) kept request.now now result }
        ensures sound { IfHandled result (λ server given. IsSound (server_rows server)) }
        ensures fault { IfHandledBroken result (λ disk. Rose (D.fault_count (server_disk self)) (D.fault_count disk)) }
        ensures grows { D.grows (server_disk self) (handled_disk server_disk result) }
        ensures later { D.fault_count (server_disk self) ≤ D.fault_count (handled_disk server_disk result) }
    {
        let Ok(ruled) = rule(self.alloc, &self.state, request, now) else {
            return Handled::Done(self, no_memory());
        };
        let Ruled {
            changes,
            answer: given,
        } = ruled;
        match self.commit(changes.as_slice()) {
            Committed::Done(server) => Handled::Done(server, given),
            Committed::Refused(server, error) => match error {
                CommitError::Memory => Handled::Done(server, in_place_of(given)),
                CommitError::TooLarge { .. } => unreachable!(),
            },
            Committed::Broken(disk) => {
                in_place_of(given);
                Handled::Broken(disk)
            }
        }
    }

    // Replies to a message at a moment.
    pub(crate) fn reply_to(self, message: Message, now: u64) -> Replied<Server<D>, D>
        requires sound { IsSound (server_rows self) }
        requires utf8 { IsUtf8 message.token }
        ensures replied { (kept : Kept) → IsOpen self kept → IsReplied IsOpen (MayHave D.told D.may_leave) kept message now result }
        ensures sound { IfReplied result (λ server reply. IsSound (server_rows server)) }
        ensures fault { IfRepliedBroken result (λ disk. Rose (D.fault_count (server_disk self)) (D.fault_count disk)) }
        ensures grows { D.grows (server_disk self) (replied_disk server_disk result) }
        ensures later { D.fault_count (server_disk self) ≤ D.fault_count (replied_disk server_disk result) }
    {
        match request_of(self.alloc, &message) {
            Ok(request) => self.serve(request, now, message.closing),
            Err(turned) => {
                let reply = turned_away(self.alloc, turned, message.closing);
                Replied::Done(self, reply)
            }
        }
    }

    // Serves a request; behind its reply the connection is to close or not.
    fn serve(self, request: Request, now: u64, closing: bool) -> Replied<Server<D>, D>
        requires sound { IsSound (server_rows self) }
        requires within { FitsRequest request }
        ensures served { (kept : Kept) → IsOpen self kept → IsServed IsOpen (MayHave D.told D.may_leave) kept request now closing result }
        ensures sound { IfReplied result (λ server reply. IsSound (server_rows server)) }
        ensures fault { IfRepliedBroken result (λ disk. Rose (D.fault_count (server_disk self)) (D.fault_count disk)) }
        ensures grows { D.grows (server_disk self) (replied_disk server_disk result) }
        ensures later { D.fault_count (server_disk self) ≤ D.fault_count (replied_disk server_disk result) }
    {
        self.serve_request(&request, now, closing)
    }

    fn serve_request(self, request: &Request, now: u64, closing: bool) -> Replied<Server<D>, D>
        requires sound { IsSound (server_rows self) }
        requires within { FitsRequest request.now }
        ensures served { (kept : Kept) → IsOpen self kept → IsServed IsOpen (MayHave D.told D.may_leave) kept request.now now closing result }
        ensures sound { IfReplied result (λ server reply. IsSound (server_rows server)) }
        ensures fault { IfRepliedBroken result (λ disk. Rose (D.fault_count (server_disk self)) (D.fault_count disk)) }
        ensures grows { D.grows (server_disk self) (replied_disk server_disk result) }
        ensures later { D.fault_count (server_disk self) ≤ D.fault_count (replied_disk server_disk result) }
    {
        let Ok(prepared) = prepare(self.alloc, &self.state, request, now, closing) else {
            return Replied::Done(self, Reply::unserved(closing));
        };
        match self.commit(prepared.changes.as_slice()) {
            Committed::Done(server) => Replied::Done(server, prepared.reply),
            Committed::Refused(server, error) => match error {
                CommitError::Memory => Replied::Done(server, Reply::unserved(closing)),
                CommitError::TooLarge { .. } => unreachable!(),
            },
            Committed::Broken(disk) => Replied::Broken(disk),
        }
    }
}

// What a request changes, and the reply to it, with all the memory that it takes.
#[derive(Drop)]
struct Prepared {
    changes: OwnedList<Change>,
    reply: Reply,
}

// What a request calls for. It changes nothing.
fn rule(alloc: Global, state: &State, request: &Request, now: u64) -> Result<Ruled, AllocError>
    requires unmarked { IsUnmarked state.now }
    requires sound { IsSound (state_rows state.now) }
    requires within { FitsRequest request.now }
    ensures rule { IfOk result (λ ruled. Rule (state_rows state.now) request.now now ruled.changes ruled.answer) }
    ensures sound { IfOk result (λ ruled. IsSound (rows_after (state_rows state.now) ruled.changes)) }
    ensures owned { IfOk result (λ ruled. All (IsOf ServerOwner) ruled.changes) }
    ensures fits { IfOk result (λ ruled. length (spelled ruled.changes) ≤ most_payload) }
{
    answer(alloc, state, request, now)
}

// Rules, and writes the reply. It changes nothing.
fn prepare(
    alloc: Global,
    state: &State,
    request: &Request,
    now: u64,
    closing: bool,
) -> Result<Prepared, AllocError>
    requires unmarked { IsUnmarked state.now }
    requires sound { IsSound (state_rows state.now) }
    requires within { FitsRequest request.now }
    ensures rule { IfOk result (λ p. (given : Answer) × Rule (state_rows state.now) request.now now p.changes given × IsSent given [] closing p.reply) }
    ensures sound { IfOk result (λ p. IsSound (rows_after (state_rows state.now) p.changes)) }
    ensures owned { IfOk result (λ p. All (IsOf ServerOwner) p.changes) }
    ensures fits { IfOk result (λ p. length (spelled p.changes) ≤ most_payload) }
{
    let ruled = rule(alloc, state, request, now)?;
    written(alloc, ruled, closing)
}

// The same, with the answer written.
fn written(alloc: Global, ruled: Ruled, closing: bool) -> Result<Prepared, AllocError>
    ensures changes { IfOk result (λ p. p.changes ≡ ruled.changes) }
    ensures reply { IfOk result (λ p. IsSent ruled.answer [] closing p.reply) }
{
    let reply = Reply::of(alloc, &ruled.answer, Text::fixed(""), closing)?;
    Ok(Prepared {
        changes: ruled.changes,
        reply,
    })
}

// The reply to a message that is no request.
fn turned_away(alloc: Global, turned: Turned, closing: bool) -> Reply
    ensures { IsTurnedAway turned closing result }
{
    match turned {
        Turned::Away { given, allow } => sent(alloc, given, allow, closing),
        Turned::Memory => Reply::unserved(closing),
    }
}

fn sent(alloc: Global, given: Answer, allow: Text, closing: bool) -> Reply
    ensures { IsSent given allow closing result ⊎ IsUnserved closing result }
{
    sent_or_not(Reply::of(alloc, &given, allow, closing), closing)
}

fn sent_or_not(reply: Result<Reply, AllocError>, closing: bool) -> Reply
    ensures { IsTheOr reply closing result }
{
    match reply {
        Ok(reply) => reply,
        Err(_) => Reply::unserved(closing),
    }
}

// The answer where memory is wanting, in the place of another. It takes none.
fn in_place_of(_given: Answer) -> Answer
    ensures { result ≡ no_memory }
{
    no_memory()
}

fn no_memory() -> Answer
    ensures { result ≡ no_memory }
{
    Answer::Refused {
        status: 503,
        tag: Text::fixed("memory"),
        more: More::Nothing,
    }
}
