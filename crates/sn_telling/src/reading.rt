//! What the bytes of an exchange say: the request, and the uuids that another account has.

ghost use Rattle.std.specs.Prelude.{◌≡◌, ◌≤◌, IfOk, Some, length};
ghost use Rattle.sn_telling.specs.Walking.{HasForeign, IsReadAs};

use crate::known::Known;
use crate::routing::request_in;
use sn_http::{
    Carry, Incoming, no_message_where_check, one_message, read_answer, read_message,
    request_reads_back,
};
use sn_io::{Failed, Source};
use sn_moves::foreign_in;
use sn_string::OwnedList;
use sn_sync::answer_laws::{answers_not_refused, one_answer};
use sn_sync::request_laws::{one_request, requests_not_refused};
use sn_sync::written_laws::requests_read_back;
use sn_sync::{Route, SyncError};
use std::alloc::{AllocError, Global};
use uuid::Uuid;

// Bytes from their start on.
#[derive(Drop)]
struct Sent<'b> {
    bytes: &'b [u8],
    at: usize,
    ghost within: { at ≤ length bytes.now },
}

impl Source for Sent<'_> {
    ghost use Rattle.std.specs.Prelude.{Some, drop};

    ghost left = { λ s. Some (drop s.at s.bytes.now) };

    ghost fault_count = { λ _. 0 };

    fn faults(&self) -> u64 {
        0
    }

    fn read(&mut self, into: &mut [u8]) -> Result<usize, Failed> {
        let rest = &self.bytes[self.at..];
        let count = rest.len().min(into.len());
        into[..count].copy_from_slice(&rest[..count]);
        self.at += count;
        Ok(count)
    }
}

// ---- requests

/// What is known of the request of these bytes. Where they aren't one that a server reads it may be nothing.
pub(crate) fn request_read(alloc: Global, bytes: &[u8]) -> Result<Option<Known>, AllocError>
    ensures { IfOk result (IsReadAs bytes.now) }
{
    request_reads_back();
    one_message();
    no_message_where_check();
    requests_read_back();
    one_request();
    requests_not_refused();
    let mut source = Sent { bytes, at: 0 };
    let mut carry = Carry::new(alloc);
    match read_message(alloc, &mut source, &mut carry) {
        Incoming::Message(message) => request_in(alloc, &message),
        Incoming::Check { .. } => Ok(None),
        Incoming::End => Ok(None),
        Incoming::ReadFault => unreachable!(),
        Incoming::Memory => Err(AllocError),
    }
}

// ---- answers

/// The uuids that another account has, by the bytes of an answer to a sync. There are none where the bytes are no answer.
pub(crate) fn foreign_told(
    alloc: Global,
    answer: &Option<OwnedList<u8>>,
) -> Result<OwnedList<Uuid>, AllocError>
    ensures { IfOk result (HasForeign answer.now) }
{
    match answer {
        Some(bytes) => foreign_read(alloc, bytes.as_slice()),
        None => Ok(OwnedList::new(alloc)),
    }
}

fn foreign_read(alloc: Global, bytes: &[u8]) -> Result<OwnedList<Uuid>, AllocError>
    ensures { IfOk result (HasForeign (Some bytes.now)) }
{
    one_answer();
    answers_not_refused();
    let Ok((status, body)) = read_answer(bytes) else {
        return Ok(OwnedList::new(alloc));
    };
    match sn_sync::read_answer(alloc, Route::Sync, status, body) {
        Ok(answer) => foreign_in(alloc, &answer),
        Err(error) => none_read(alloc, &error),
    }
}

// None, where it isn't memory that was wanting.
fn none_read(alloc: Global, error: &SyncError) -> Result<OwnedList<Uuid>, AllocError>
    ensures { IfOk result (λ uuids. error.now ≡ SyncError.Memory → ⊥) }
{
    match error {
        SyncError::Memory => Err(AllocError),
        _ => Ok(OwnedList::new(alloc)),
    }
}
