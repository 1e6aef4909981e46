//! What the fields of a head say of the body (RFC 9112, 6).
ghost use Rattle.std.specs.Prelude.{◌≡◌, ◌<◌, ◌≤◌, ◌^◌, true, ◌&&◌, ◌||◌, not, length, map, All, Some, IfSome, IfOk, codes};
ghost use Rattle.std.specs.List.{list_all};
ghost use Rattle.std.specs.Char.{is_ascii_digit};
ghost use Rattle.std.specs.Str.Parse.{digits_value};
ghost use Rattle.httparse.specs.Spans.{IsHeaderWithin, header_bytes};
ghost use Rattle.sn_http.specs.Fields.{is_word, values_of};
ghost use Rattle.sn_http.specs.Framing.{is_coded, is_length, number_of, all_same, bounded, framing};

use crate::fields::{first_value, is_word};
use httparse::spans::HeaderSpan;

const BODY_LIMIT: u64 = 8388608;

const TRANSFER_ENCODING: &[u8] = b"transfer-encoding";

const CONTENT_ENCODING: &[u8] = b"content-encoding";

pub(crate) const CONTENT_LENGTH: &[u8] = b"content-length";

/// How long the body is, or the status of the first check that fails.
#[tactic(auto, unfolding(crate::specs::Framing::framing))]
pub(crate) fn framing(method: &[u8], bytes: &[u8], headers: &[HeaderSpan]) -> Result<usize, u16>
    requires { All (IsHeaderWithin (length bytes.now)) headers.now }
    ensures is { result ≡ framing method.now (map (header_bytes bytes.now) headers.now) }
    ensures small { IfOk result (λ size. size ≤ 8388608) }
{
    if is_coded(bytes, headers) {
        return Err(501);
    }
    match first_value(CONTENT_LENGTH, bytes, headers) {
        Some(value) => {
            if all_same(CONTENT_LENGTH, value, bytes, headers) {
                bounded(BODY_LIMIT, number_of(value))
            } else {
                Err(400)
            }
        }
        None => {
            if method == b"POST".as_slice() {
                Err(411)
            } else {
                Ok(0)
            }
        }
    }
}

// A body in a coding is refused.
fn is_coded(bytes: &[u8], headers: &[HeaderSpan]) -> bool
    requires { All (IsHeaderWithin (length bytes.now)) headers.now }
    ensures { result ≡ is_coded (map (header_bytes bytes.now) headers.now) }
{
    first_value(TRANSFER_ENCODING, bytes, headers).is_some() || !all_identity(bytes, headers)
}

fn all_identity(bytes: &[u8], headers: &[HeaderSpan]) -> bool
    requires { All (IsHeaderWithin (length bytes.now)) headers.now }
    ensures { result ≡ list_all (is_word (codes "identity")) (values_of (codes "content-encoding") (map (header_bytes bytes.now) headers.now)) }
{
    for header in headers {
        if is_word(CONTENT_ENCODING, header.name.of(bytes))
            && !is_word(b"identity", header.value.of(bytes))
        {
            return false;
        }
    }
    true
}

// Whether all fields of the name have this value.
pub(crate) fn all_same(name: &[u8], value: &[u8], bytes: &[u8], headers: &[HeaderSpan]) -> bool
    requires { All (IsHeaderWithin (length bytes.now)) headers.now }
    ensures { result ≡ all_same value.now (values_of name.now (map (header_bytes bytes.now) headers.now)) }
{
    for header in headers {
        if is_word(name, header.name.of(bytes)) && header.value.of(bytes) != value {
            return false;
        }
    }
    true
}

pub(crate) fn bounded(most: u64, number: Option<u64>) -> Result<usize, u16>
    ensures is { result ≡ bounded most number }
    ensures small { IfOk result (λ size. size ≤ most) }
{
    match number {
        Some(size) => {
            if size <= most {
                Ok(size as usize)
            } else {
                Err(413)
            }
        }
        None => Err(400),
    }
}

pub(crate) fn number_of(value: &[u8]) -> Option<u64>
    ensures { result ≡ number_of value.now }
{
    if is_length(value) {
        Some(digits_value(value))
    } else {
        None
    }
}

fn is_length(value: &[u8]) -> bool
    ensures { result ≡ is_length value.now }
{
    0 < value.len() && value.len() <= 10 && all_digits(value)
}

fn all_digits(value: &[u8]) -> bool
    ensures { result ≡ list_all is_ascii_digit value.now }
{
    value.iter().all(|digit| digit.is_ascii_digit())
}

fn digits_value(digits: &[u8]) -> u64
    requires few { length digits.now ≤ 10 }
    requires digits { list_all is_ascii_digit digits.now ≡ true }
    ensures { result ≡ digits_value 10 digits.now }
{
    let mut number = 0;
    for digit in digits {
        number = number * 10 + (*digit - b'0') as u64;
    }
    number
}
