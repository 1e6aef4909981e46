//! Replies: the status, the body and the rest of an answer, as they are written.

ghost use Rattle.std.specs.Prelude.{◌≡◌, IfOk};
ghost use Rattle.sn_account.specs.RuleLaws.{status_of};
ghost use Rattle.sn_server.specs.CheckBodies.{check_body};

use sn_string::Text;
use sn_sync::{Answer, write_answer};
use std::alloc::{AllocError, Global};

/// What is written in answer to a message.
#[derive(Drop)]
pub(crate) struct Reply {
    pub status: u16,
    /// The method that a 405 allows, and else empty.
    pub allow: Text,
    pub closing: bool,
    pub body: Text,
}

impl Reply {
    ghost use Rattle.sn_server.specs.Replies.{IsSent, IsUnserved};

    /// The reply that sends an answer.
    pub fn of(
        alloc: Global,
        given: &Answer,
        allow: Text,
        closing: bool,
    ) -> Result<Reply, AllocError>
        ensures { IfOk result (IsSent given.now allow closing) }
    {
        let body = write_answer(alloc, given)?;
        Ok(Reply {
            status: status_of(given),
            allow,
            closing,
            body: Text::of_string(body),
        })
    }

    /// The reply where memory is wanting. It takes none.
    pub fn unserved(closing: bool) -> Reply
        ensures { IsUnserved closing result }
    {
        Reply {
            status: 503,
            allow: Text::fixed(""),
            closing,
            body: Text::fixed("{\"error\":{\"tag\":\"memory\"}}"),
        }
    }
}

fn status_of(given: &Answer) -> u16
    ensures { result ≡ status_of given.now }
{
    match given {
        Answer::Account { .. } => 200,
        Answer::Params(_) => 200,
        Answer::Sync { .. } => 200,
        Answer::Refused { status, .. } => *status,
    }
}

/// The body of the answer to a message that fails a check.
pub(crate) fn check_body(status: u16) -> &'static str
    ensures { result.now ≡ check_body status }
{
    match status {
        411 => "{\"error\":{\"tag\":\"length-required\"}}",
        413 => "{\"error\":{\"tag\":\"body-long\"}}",
        501 => "{\"error\":{\"tag\":\"coding\"}}",
        _ => "{\"error\":{\"tag\":\"broken\"}}",
    }
}
