//! Parameters whose JSON is exactly what is written for them, with nothing escaped. Nearly all are
//! such. They are read in place, and do without memory and without the JSON reader, which takes
//! longer than the rest of a string.

ghost use Rattle.std.specs.Prelude.{◌≡◌, ◌≤◌, ◌<◌, ◌∷◌, ◌++◌, length, take, decimal, string_bytes, IfOk, IfSome, IsTrue};
ghost use Rattle.std.specs.List.{list_all};
ghost use Rattle.sn_string.specs.Base64.{IsBase64};
ghost use Rattle.sn_string.specs.Lent.{lent_params};
ghost use Rattle.sn_string.specs.Parameters.{IsParamsJson, IsParamsPart, is_plain, params_json, plain_json};
ghost use Rattle.sn_string.specs.declared.params.Params.{Params};

use crate::lent::LentParams;
use crate::params::{Params, are_within_bounds};
use base64::engine::general_purpose::STANDARD;
use itoa::Buffer;
use simdutf8::compat::from_utf8;
use std::alloc::{AllocError, Global};

/// The bytes of the room in which a part is decoded. The parts of all but very long identifiers and
/// nonces find room in it.
pub(crate) const ROOM: usize = 384;

// The most characters that stand for so many bytes.
const MOST_CHARACTERS: usize = 512;

/// The parameters of a part, where it is short and is what is written for them, with nothing
/// escaped.
pub(crate) fn plain_params<'r>(part: &str, room: &'r mut [u8]) -> Option<LentParams<'r>>
    requires { length room.old ≡ ROOM }
    ensures { IfSome result (λ lent. IsParamsPart part.now (lent_params lent)) }
{
    let count = decode_short(part, room)?;
    plain_json(&room[..count])
}

// Decodes a short base64 text into the room, and gives the number of its bytes.
fn decode_short(text: &str, room: &mut [u8]) -> Option<usize>
    requires { length room.old ≡ ROOM }
    ensures short { IfSome result (λ count. length text.now ≤ MOST_CHARACTERS) }
    ensures within { IfSome result (λ count. count ≤ length room.new) }
    ensures encoded { IfSome result (λ count. IsBase64 text.now (take count room.new)) }
{
    if text.len() > MOST_CHARACTERS {
        return None;
    }
    match STANDARD.decode_slice_unchecked(text.as_bytes(), room) {
        Ok(count) => Some(count),
        Err(_) => None,
    }
}

// The parameters, where the JSON is what is written for them, with nothing escaped.
fn plain_json(json: &[u8]) -> Option<LentParams<'_>>
    ensures { IfSome result (λ lent. IsParamsJson json.now (lent_params lent)) }
{
    let Ok(text) = from_utf8(json) else {
        return None;
    };
    let (identifier, pw_cost, pw_nonce) = pieces_of(text)?;
    if !is_plain(identifier) || !is_plain(pw_nonce) {
        return None;
    }
    if !are_within_bounds(identifier, pw_cost, pw_nonce) {
        return None;
    }
    Some(LentParams {
        identifier,
        pw_cost,
        pw_nonce,
    })
}

// The identifier, the cost and the nonce, where they stand between what is always written.
fn pieces_of(json: &str) -> Option<(&str, u32, &str)>
    ensures { IfSome result (λ pieces. (params : Params) → pieces.0.now ≡ params.identifier
        → pieces.1 ≡ params.pw_cost → pieces.2.now ≡ params.pw_nonce → json.now ≡ plain_json params) }
{
    let (identifier, later) = piece(json, "{\"identifier\":\"", '"')?;
    let (digits, last) = piece(later, ",\"pw_cost\":", ',')?;
    let end = after(last, "\"pw_nonce\":\"")?;
    let pw_nonce = before(end, "\",\"version\":\"003\"}")?;
    let pw_cost = cost_of(digits)?;
    Some((identifier, pw_cost, pw_nonce))
}

// What stands between this front and the first mark after it, and what follows that.
fn piece<'t>(text: &'t str, front: &str, mark: char) -> Option<(&'t str, &'t str)>
    requires { mark < 128 }
    ensures { IfSome result (λ both. text.now ≡ front.now ++ (both.0.now ++ mark ∷ both.1.now)) }
{
    let rest = after(text, front)?;
    around(rest, mark)
}

// What follows this front.
fn after<'t>(text: &'t str, front: &str) -> Option<&'t str>
    ensures { IfSome result (λ rest. text.now ≡ front.now ++ rest.now) }
{
    text.strip_prefix(front)
}

// What stands before this end.
fn before<'t>(text: &'t str, end: &str) -> Option<&'t str>
    ensures { IfSome result (λ rest. text.now ≡ rest.now ++ end.now) }
{
    text.strip_suffix(end)
}

// What stands before the first mark, and what follows it.
fn around(text: &str, mark: char) -> Option<(&str, &str)>
    requires { mark < 128 }
    ensures { IfSome result (λ both. text.now ≡ both.0.now ++ mark ∷ both.1.now) }
{
    text.split_once(mark)
}

// The cost that is written with these digits.
fn cost_of(digits: &str) -> Option<u32>
    ensures { IfSome result (λ cost. digits.now ≡ decimal cost) }
{
    let cost: u32 = digits.parse().ok()?;
    let mut buffer = Buffer::new();
    // `parse` takes a sign and leading zeros too, so what it read is written again and compared.
    if buffer.format(cost).as_bytes() == digits.as_bytes() {
        Some(cost)
    } else {
        None
    }
}

/// The JSON of parameters whose identifier and nonce stand in it as they are.
pub(crate) fn plain_text(
    alloc: Global,
    identifier: &str,
    pw_cost: u32,
    pw_nonce: &str,
) -> Result<String, AllocError>
    ensures { IfOk result (λ json. (params : Params) → identifier.now ≡ params.identifier
        → pw_cost ≡ params.pw_cost → pw_nonce.now ≡ params.pw_nonce → string_bytes json ≡ plain_json params) }
{
    let mut buffer = Buffer::new();
    let mut json = String::with_capacity(alloc, ROOM)?;
    json.push_str("{\"identifier\":\"")?;
    json.push_str(identifier)?;
    json.push_str("\",\"pw_cost\":")?;
    json.push_str(buffer.format(pw_cost))?;
    json.push_str(",\"pw_nonce\":\"")?;
    json.push_str(pw_nonce)?;
    json.push_str("\",\"version\":\"003\"}")?;
    Ok(json)
}

/// Whether the part is what is written for the parameters, with nothing escaped. It is not read for that.
pub(crate) fn is_plain_part_of(part: &str, params: &Params) -> bool
    ensures { IsTrue result → IsParamsPart part.now params.now }
{
    let mut json = [0u8; ROOM];
    match put_plain(params, &mut json) {
        Some(count) => is_base64_of(part, &json[..count]),
        None => false,
    }
}

// Whether the text is the base64 of these bytes, if they are few.
fn is_base64_of(text: &str, bytes: &[u8]) -> bool
    ensures { IsTrue result → IsBase64 text.now bytes.now }
{
    let mut room = [0u8; MOST_CHARACTERS];
    match STANDARD.encode_slice(bytes, &mut room) {
        Ok(count) => {
            let written = &room[..count];
            written == text.as_bytes()
        }
        Err(_) => false,
    }
}

// Puts the JSON of parameters in front of the room, if nothing is escaped in it and it has room.
fn put_plain(params: &Params, room: &mut [u8]) -> Option<usize>
    requires { length room.old ≡ ROOM }
    ensures within { IfSome result (λ count. count ≤ length room.new) }
    ensures json { IfSome result (λ count. IsParamsJson (take count room.new) params.now × (take count room.new ≡ params_json params.now)) }
{
    let identifier = params.identifier.as_str();
    let pw_nonce = params.pw_nonce.as_str();
    if !is_plain(identifier) {
        return None;
    }
    if !is_plain(pw_nonce) {
        return None;
    }
    let mut buffer = Buffer::new();
    let place = put(room, 0, "{\"identifier\":\"")?;
    let place = put(room, place, identifier)?;
    let place = put(room, place, "\",\"pw_cost\":")?;
    let place = put(room, place, buffer.format(params.pw_cost))?;
    let place = put(room, place, ",\"pw_nonce\":\"")?;
    let place = put(room, place, pw_nonce)?;
    let end = put(room, place, "\",\"version\":\"003\"}")?;
    Some(end)
}

// Puts a text at a place, and gives the place behind it, if the room goes so far.
fn put(room: &mut [u8], place: usize, text: &str) -> Option<usize>
    requires { place ≤ length room.old }
    ensures within { IfSome result (λ end. end ≤ length room.new) }
    ensures after { IfSome result (λ end. take end room.new ≡ take place room.old ++ text.now) }
{
    if room.len() - place < text.len() {
        return None;
    }
    let end = place + text.len();
    room[place..end].copy_from_slice(text.as_bytes());
    Some(end)
}

/// Whether the text stands in JSON as it is.
pub(crate) fn is_plain(text: &str) -> bool
    ensures { result ≡ list_all is_plain text.now }
{
    are_plain(text.as_bytes())
}

// No byte ends the loop, so that many are looked at in one step.
fn are_plain(bytes: &[u8]) -> bool
    ensures { result ≡ list_all is_plain bytes.now }
{
    let mut all = true;
    'bytes: for byte in bytes {
        all = all & is_plain_byte(*byte);
    }
    all
}

fn is_plain_byte(byte: u8) -> bool
    ensures { result ≡ is_plain byte }
{
    byte >= 32 && byte != b'"' && byte != b'\\'
}
