//! The head of a request at the front of some bytes.
ghost use Rattle.std.specs.Prelude.{◌≡◌, ◌≤◌, length, map, All, IfOk};
ghost use Rattle.httparse.specs.Spans.{IsWithin, IsHeaderWithin, span_bytes, header_bytes};
ghost use Rattle.sn_http.specs.Heads.{HasNoHead, NeverHasHead};
ghost use Rattle.sn_http.specs.Framing.{framing};
ghost use Rattle.sn_http.specs.Options.{token_of, closes};
ghost use Rattle.sn_http.specs.Found.{IsHeadAt, IfHead, IsNotYet, IsNever};

use crate::framing::framing;
use crate::options::{closes, token_of};
use httparse::Status;
use httparse::spans::{EMPTY_HEADER_SPAN, HeaderSpan, RequestSpans, parse_request};
use sn_string::Bytes;
use std::alloc::{AllocError, Global};

/// The parts of a head that a message has, and how long its body is or which check its fields fail.
#[derive(Debug, Drop)]
pub(crate) struct Head {
    pub len: usize,
    pub method: Bytes,
    pub target: Bytes,
    pub token: Bytes,
    pub closing: bool,
    pub body: Result<usize, u16>,
}

#[derive(Debug, Drop)]
pub(crate) enum Found {
    Head(Head),
    /// None in these bytes alone.
    NotYet,
    /// None, whatever follows.
    Never,
    /// One, and no memory for it.
    Memory,
}

pub(crate) fn head_in(alloc: Global, bytes: &[u8]) -> Found
    requires { length bytes.now ≤ 16384 }
    ensures head { IfHead result (IsHeadAt bytes.now) }
    ensures not_yet { IsNotYet result → HasNoHead bytes.now }
    ensures never { IsNever result → NeverHasHead bytes.now }
{
    let mut headers = [EMPTY_HEADER_SPAN; 64];
    match parse_request(bytes, &mut headers) {
        Ok(Status::Complete(spans)) => {
            match head_of(alloc, bytes, spans, &headers[..spans.headers]) {
                Ok(head) => Found::Head(head),
                Err(_) => Found::Memory,
            }
        }
        Ok(Status::Partial) => Found::NotYet,
        Err(_) => Found::Never,
    }
}

// The head whose parts are there.
fn head_of(
    alloc: Global,
    bytes: &[u8],
    spans: RequestSpans,
    headers: &[HeaderSpan],
) -> Result<Head, AllocError>
    requires headers { All (IsHeaderWithin (length bytes.now)) headers.now }
    requires method { IsWithin (length bytes.now) spans.method }
    requires target { IsWithin (length bytes.now) spans.path }
    ensures len { IfOk result (λ head. head.len ≡ spans.len) }
    ensures method { IfOk result (λ head. head.method ≡ span_bytes bytes.now spans.method) }
    ensures target { IfOk result (λ head. head.target ≡ span_bytes bytes.now spans.path) }
    ensures token { IfOk result (λ head. head.token ≡ token_of (map (header_bytes bytes.now) headers.now)) }
    ensures closing { IfOk result (λ head. head.closing ≡ closes spans.version (map (header_bytes bytes.now) headers.now)) }
    ensures body { IfOk result (λ head. head.body ≡ framing (span_bytes bytes.now spans.method) (map (header_bytes bytes.now) headers.now)) }
    ensures small { IfOk result (λ head. IfOk head.body (λ size. size ≤ 8388608)) }
{
    let method = spans.method.of(bytes);
    Ok(Head {
        len: spans.len,
        method: Bytes::of(alloc, method)?,
        target: Bytes::of(alloc, spans.path.of(bytes))?,
        token: Bytes::of(alloc, token_of(bytes, headers))?,
        closing: closes(spans.version, bytes, headers),
        body: framing(method, bytes, headers),
    })
}
