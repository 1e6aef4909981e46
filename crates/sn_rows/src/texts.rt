//! Whether a text is within the bounds of a column.

ghost use Rattle.std.specs.Prelude.{◌≡◌, ◌↔◌, length, false, IsTrue, IfSome, IfNone};
ghost use Rattle.std.specs.Str.{is_utf8};
ghost use Rattle.std.specs.List.{list_all};
ghost use Rattle.sn_rows.specs.Bounds.{HasLength, HasDeviceLengths, IsVisible, is_text_of, is_token, is_device_string, is_visible, has_device_lengths, after_colon, before_colon};

use memchr::memrchr;
use sn_string::{MOST_STRING, Text};

/// Whether the text has so many bytes.
pub(crate) fn is_text_within(text: &Text, least: usize, most: usize) -> bool
    ensures within { IsTrue result ↔ HasLength least most text.now }
    ensures test { result ≡ is_text_of least most text.now }
{
    is_str_within(text.as_str(), least, most)
}

/// Whether the text has so many bytes.
pub(crate) fn is_str_within(text: &str, least: usize, most: usize) -> bool
    ensures within { IsTrue result ↔ HasLength least most text.now }
    ensures test { result ≡ is_text_of least most text.now }
{
    least <= text.len() && text.len() <= most
}

/// Whether what stands before the text's last colon, and what stands after it, are short enough
/// for a device's row.
pub(crate) fn is_device_text(text: &Text) -> bool
    ensures within { IsTrue result ↔ HasDeviceLengths text.now }
    ensures test { result ≡ is_device_string text.now }
{
    let text = text.as_str();
    are_device_lengths(text.as_bytes())
}

/// Whether all bytes of the text are visible ASCII characters.
pub(crate) fn is_visible(text: &Text) -> bool
    ensures within { IsTrue result ↔ IsVisible text.now }
    ensures test { result ≡ list_all is_visible text.now }
{
    are_visible(text.as_str().as_bytes())
}

pub(crate) fn are_visible(bytes: &[u8]) -> bool
    ensures { result ≡ list_all is_visible bytes.now }
{
    bytes.iter().all(|byte| is_visible_byte(*byte))
}

fn is_visible_byte(byte: u8) -> bool
    ensures { result ≡ is_visible byte }
{
    33 <= byte && byte <= 126
}

pub(crate) fn are_device_lengths(bytes: &[u8]) -> bool
    ensures within { IsTrue result ↔ HasDeviceLengths bytes.now }
    ensures test { result ≡ has_device_lengths bytes.now }
{
    let (before, after) = colon_lengths(bytes);
    before <= MOST_STRING && after <= 8192
}

// How many bytes stand before the last colon, and how many after it.
fn colon_lengths(bytes: &[u8]) -> (usize, usize)
    ensures before { result.0 ≡ length (before_colon bytes.now) }
    ensures after { result.1 ≡ length (after_colon bytes.now) }
{
    match memrchr(b':', bytes) {
        Some(place) => (place, bytes.len() - place - 1),
        None => (bytes.len(), 0),
    }
}

// The bytes as a text.
fn utf8_of(bytes: &[u8]) -> Option<&str>
    ensures some { IfSome result (λ text. (text.now ≡ bytes.now) × IsTrue (is_utf8 bytes.now)) }
    ensures none { IfNone result (is_utf8 bytes.now ≡ false) }
{
    match simdutf8::compat::from_utf8(bytes) {
        Ok(text) => Some(text),
        Err(_) => None,
    }
}

/// The bytes as a text of so many.
pub(crate) fn text_within(bytes: &[u8], least: usize, most: usize) -> Option<&str>
    ensures some { IfSome result (λ text. (text.now ≡ bytes.now) × IsTrue (is_text_of least most bytes.now)) }
    ensures none { IfNone result (is_text_of least most bytes.now ≡ false) }
{
    match utf8_of(bytes) {
        Some(text) => {
            if least <= bytes.len() && bytes.len() <= most {
                Some(text)
            } else {
                None
            }
        }
        None => None,
    }
}

/// The bytes as a session token.
pub(crate) fn token_within(bytes: &[u8]) -> Option<&str>
    ensures some { IfSome result (λ text. (text.now ≡ bytes.now) × IsTrue (is_token bytes.now)) }
    ensures none { IfNone result (is_token bytes.now ≡ false) }
{
    match text_within(bytes, 1, 1024) {
        Some(text) => if are_visible(bytes) { Some(text) } else { None },
        None => None,
    }
}

/// The bytes as a string of an item on a device.
pub(crate) fn device_text_within(bytes: &[u8]) -> Option<&str>
    ensures some { IfSome result (λ text. (text.now ≡ bytes.now) × IsTrue (is_device_string bytes.now)) }
    ensures none { IfNone result (is_device_string bytes.now ≡ false) }
{
    match utf8_of(bytes) {
        Some(text) => if are_device_lengths(bytes) {
            Some(text)
        } else {
            None
        },
        None => None,
    }
}
