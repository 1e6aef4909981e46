//! The head of an answer at the front of some bytes.
ghost use Rattle.std.specs.Prelude.{◌≡◌, ◌≤◌, length, map, All, IfSome};
ghost use Rattle.std.specs.Option.{IfNone};
ghost use Rattle.httparse.specs.Spans.{IsHeaderWithin, header_bytes};
ghost use Rattle.sn_http.specs.Answers.{answer_size};
ghost use Rattle.sn_http.specs.AnswerHeads.{IsAnswerHeadAt, HasNoAnswerHead};

use crate::fields::first_value;
use crate::framing::{CONTENT_LENGTH, all_same, bounded, number_of};
use httparse::Status;
use httparse::spans::{EMPTY_HEADER_SPAN, HeaderSpan, parse_response};

const ANSWER_LIMIT: u64 = 33554432;

/// How long a head is, its status, and how long its body is to be.
#[derive(Clone, Copy, Debug)]
pub(crate) struct AnswerHead {
    pub len: usize,
    pub status: u16,
    pub size: Result<usize, u16>,
}

pub(crate) fn answer_head_in(bytes: &[u8]) -> Option<AnswerHead>
    requires { length bytes.now ≤ 16384 }
    ensures some { IfSome result (IsAnswerHeadAt bytes.now) }
    ensures fits { IfSome result (λ head. head.len ≤ length bytes.now) }
    ensures none { IfNone result (HasNoAnswerHead bytes.now) }
{
    let mut headers = [EMPTY_HEADER_SPAN; 64];
    match parse_response(bytes, &mut headers) {
        Ok(Status::Complete(spans)) => Some(AnswerHead {
            len: spans.len,
            status: spans.code,
            size: answer_size(bytes, &headers[..spans.headers]),
        }),
        _ => None,
    }
}

#[tactic(auto, unfolding(crate::specs::Answers::answer_size))]
fn answer_size(bytes: &[u8], headers: &[HeaderSpan]) -> Result<usize, u16>
    requires { All (IsHeaderWithin (length bytes.now)) headers.now }
    ensures { result ≡ answer_size (map (header_bytes bytes.now) headers.now) }
{
    match first_value(CONTENT_LENGTH, bytes, headers) {
        Some(value) => {
            if all_same(CONTENT_LENGTH, value, bytes, headers) {
                bounded(ANSWER_LIMIT, number_of(value))
            } else {
                Err(400)
            }
        }
        None => Err(400),
    }
}
