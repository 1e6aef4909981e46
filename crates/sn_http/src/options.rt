//! What a head says beside its body's length: the token of its credentials, and whether the connection is to close.
ghost use Rattle.std.specs.Prelude.{◌≡◌, ◌==◌, ◌<◌, ◌≤◌, length, map, take, drop, codes, All, slice_range};
ghost use Rattle.std.specs.List.{list_all, list_any};
ghost use Rattle.httparse.specs.Grammar.{is_ows, trim_ows};
ghost use Rattle.httparse.specs.Spans.{IsHeaderWithin, header_bytes};
ghost use Rattle.sn_http.specs.Fields.{values_of};
ghost use Rattle.sn_http.specs.Options.{is_visible, is_token_text, skip_spaces, if_token, bearer, token_of, names_close, closes};

use crate::fields::{first_value, is_word};
use httparse::spans::HeaderSpan;

const AUTHORIZATION: &[u8] = b"authorization";

const CONNECTION: &[u8] = b"connection";

/// The token of the first Authorization, or nothing where that has none of its form.
pub(crate) fn token_of<'b>(bytes: &'b [u8], headers: &[HeaderSpan]) -> &'b [u8]
    requires { All (IsHeaderWithin (length bytes.now)) headers.now }
    ensures { result.now ≡ token_of (map (header_bytes bytes.now) headers.now) }
{
    match first_value(AUTHORIZATION, bytes, headers) {
        Some(value) => bearer(value),
        None => &[],
    }
}

#[tactic(auto, unfolding(crate::specs::Options::bearer))]
fn bearer(value: &[u8]) -> &[u8]
    ensures { result.now ≡ bearer value.now }
{
    if value.len() > 6 && is_word(b"bearer", &value[..6]) && value[6] == b' ' {
        if_token(skip_spaces(&value[6..]))
    } else {
        &[]
    }
}

fn if_token(text: &[u8]) -> &[u8]
    ensures { result.now ≡ if_token text.now }
{
    if is_token_text(text) { text } else { &[] }
}

fn is_token_text(text: &[u8]) -> bool
    ensures { result ≡ is_token_text text.now }
{
    0 < text.len() && text.len() <= 1024 && all_visible(text)
}

fn all_visible(text: &[u8]) -> bool
    ensures { result ≡ list_all is_visible text.now }
{
    text.iter().all(|byte| is_visible(*byte))
}

fn is_visible(byte: u8) -> bool
    ensures { result ≡ is_visible byte }
{
    33 <= byte && byte <= 126
}

fn skip_spaces(text: &[u8]) -> &[u8]
    ensures { result.now ≡ skip_spaces text.now }
{
    let mut at = 0;
    'spaces: while at < text.len() && text[at] == b' ' {
        at += 1;
    }
    &text[at..]
}

/// Whether the connection is to close behind the answer.
#[tactic(auto, unfolding(crate::specs::Options::closes))]
pub(crate) fn closes(minor: u8, bytes: &[u8], headers: &[HeaderSpan]) -> bool
    requires { All (IsHeaderWithin (length bytes.now)) headers.now }
    ensures { result ≡ closes minor (map (header_bytes bytes.now) headers.now) }
{
    minor == 0 || any_close(bytes, headers)
}

fn any_close(bytes: &[u8], headers: &[HeaderSpan]) -> bool
    requires { All (IsHeaderWithin (length bytes.now)) headers.now }
    ensures { result ≡ list_any names_close (values_of (codes "connection") (map (header_bytes bytes.now) headers.now)) }
{
    for header in headers {
        if is_word(CONNECTION, header.name.of(bytes)) && names_close(header.value.of(bytes)) {
            return true;
        }
    }
    false
}

fn names_close(value: &[u8]) -> bool
    ensures { result ≡ names_close value.now }
{
    value
        .split(|byte| *byte == b',')
        .any(|option| is_word(b"close", trimmed(option)))
}

// Without the white space at both ends.
fn trimmed(text: &[u8]) -> &[u8]
    ensures { result.now ≡ trim_ows text.now }
{
    let mut start = 0;
    let mut end = text.len();
    while start < end && is_white(text[start]) {
        start += 1;
    }
    while start < end && is_white(text[end - 1]) {
        end -= 1;
    }
    &text[start..end]
}

// Optional white space (RFC 9110, 5.6.3).
fn is_white(byte: u8) -> bool
    ensures { result ≡ is_ows byte }
{
    byte == b' ' || byte == b'\t'
}
