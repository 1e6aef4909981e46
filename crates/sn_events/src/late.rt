//! Requests that come late or again.

ghost use Rattle.std.specs.Prelude.{◌≡◌, ◌≢◌, ◌∷◌, [], ℕ, List, Some, IfOk};
ghost use Rattle.sn_events.specs.Late.{HasRedelivered};
ghost use Rattle.sn_http.specs.Answers.{IsAnswer};

use crate::calling::served;
use sn_http::read_answer;
use sn_link::ServingLink;
use sn_recorder::{Delivered, RecordingLink};
use sn_rows::Change;
use sn_string::OwnedList;
use std::alloc::{AllocError, Global};

/// What came of a request that was delivered once more: the link to its server again, the place behind the batches of its store,
/// the batches that this gained, and the status of the answer.
#[derive(Drop)]
pub(crate) struct Redelivered {
    pub(crate) link: ServingLink,
    pub(crate) place: u64,
    pub(crate) batches: OwnedList<OwnedList<Change>>,
    pub(crate) status: u16,
}

/// Delivers a request once more over a link, at this moment.
pub(crate) fn redeliver(
    alloc: Global,
    mut link: ServingLink,
    place: u64,
    now: u64,
    request: &[u8],
) -> Result<Redelivered, AllocError>
    ensures { IfOk result (HasRedelivered link place now request.now) }
{
    link.set_now(now);
    let mut recording = RecordingLink::new(alloc, link, place);
    let Ok(Delivered { answer, batches }) = recording.deliver_again(alloc, request) else {
        return Err(AllocError);
    };
    let (link, place, _) = served(recording)?;
    let status = status_in(answer.as_slice())?;
    Ok(Redelivered {
        link,
        place,
        batches,
        status,
    })
}

// The status of an answer. One that isn't read, or that says that memory was wanting at the server, is want of memory.
fn status_in(answer: &[u8]) -> Result<u16, AllocError>
    ensures read { IfOk result (λ status. (body : List ℕ) × IsAnswer answer.now status body) }
    ensures other { IfOk result (λ status. status ≢ 503) }
{
    match read_answer(answer) {
        Ok((503, _)) | Err(_) => Err(AllocError),
        Ok((status, _)) => Ok(status),
    }
}
