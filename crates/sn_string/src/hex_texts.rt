//! Lower-case hex digits. Upper case is refused, so that each list of bytes has one spelling.

ghost use Rattle.std.specs.Prelude.{◌≡◌, ◌↔◌, ◌*◌, ℕ, List, length, string_bytes, IfOk, IfSome, IfNone, IsTrue};
ghost use Rattle.std.specs.List.{list_all};
ghost use Rattle.hex.specs.Hex.{encode_lower};
ghost use Rattle.sn_string.specs.Hex.{IsLowerHex, is_lower_digit};

use hex::FromHex;
use std::alloc::{AllocError, Global};

/// The digits of some bytes.
pub fn hex_text(alloc: Global, bytes: &[u8]) -> Result<String, AllocError>
    ensures { IfOk result (λ text. IsLowerHex (length bytes.now) (string_bytes text) bytes.now) }
{
    hex::encode(alloc, bytes)
}

/// The 64 digits of 32 bytes. Takes no memory.
pub fn hash_digits(bytes: &[u8; 32]) -> [u8; 64]
    ensures { IsLowerHex 32 result bytes.now }
{
    let mut digits = [0u8; 64];
    let Ok(()) = hex::encode_to_slice(bytes, &mut digits) else {
        unreachable!();
    };
    digits
}

/// The 32 bytes of 64 digits.
pub fn hash_bytes(text: &str) -> Option<[u8; 32]>
    ensures some { IfSome result (λ bytes. IsLowerHex 32 text.now bytes) }
    ensures none { IfNone result ((bytes : List ℕ) → ¬ (IsLowerHex 32 text.now bytes)) }
{
    spelled_bytes::<32, 64>(text)
}

/// The 16 bytes of 32 digits.
pub fn iv_bytes(text: &str) -> Option<[u8; 16]>
    ensures some { IfSome result (λ bytes. IsLowerHex 16 text.now bytes) }
    ensures none { IfNone result ((bytes : List ℕ) → ¬ (IsLowerHex 16 text.now bytes)) }
{
    spelled_bytes::<16, 32>(text)
}

/// The 64 bytes of 128 digits.
pub fn key_bytes(text: &str) -> Option<[u8; 64]>
    ensures some { IfSome result (λ bytes. IsLowerHex 64 text.now bytes) }
    ensures none { IfNone result ((bytes : List ℕ) → ¬ (IsLowerHex 64 text.now bytes)) }
{
    spelled_bytes::<64, 128>(text)
}

// `hex` takes either case, so the case is looked at first.
fn spelled_bytes<const N: usize, const DIGITS: usize>(text: &str) -> Option<[u8; N]>
    requires { DIGITS ≡ 2 * N }
    ensures some { IfSome result (λ bytes. IsLowerHex N text.now bytes) }
    ensures none { IfNone result ((bytes : List ℕ) → ¬ (IsLowerHex N text.now bytes)) }
{
    if !are_digits(text, DIGITS) {
        return None;
    }
    let Ok(bytes) = <[u8; N] as FromHex>::from_hex(text) else {
        unreachable!();
    };
    Some(bytes)
}

/// Whether the text is so many digits.
pub(crate) fn are_digits(text: &str, count: usize) -> bool
    ensures { (n : ℕ) → count ≡ 2 * n → IsTrue result ↔ ((bytes : List ℕ) × IsLowerHex n text.now bytes) }
{
    if text.len() != count {
        return false;
    }
    are_lower(text.as_bytes())
}

// No digit ends the loop, so that many bytes are looked at in one step.
fn are_lower(bytes: &[u8]) -> bool
    ensures { result ≡ list_all is_lower_digit bytes.now }
{
    let mut all = true;
    'bytes: for byte in bytes {
        all = all & is_lower(*byte);
    }
    all
}

fn is_lower(byte: u8) -> bool
    ensures { result ≡ is_lower_digit byte }
{
    (byte >= b'0' && byte <= b'9') || (byte >= b'a' && byte <= b'f')
}
