//! The form of a ciphertext: base64 of whole blocks. It is checked without a buffer of its length.

ghost use Rattle.std.specs.Prelude.{◌≡◌, ◌↔◌, ◌<◌, ◌≤◌, ℕ, List, length, IsTrue, IfSome, IfNone};
ghost use Rattle.sn_string.specs.Base64.{IsBase64};
ghost use Rattle.sn_string.specs.Grammar.{IsCiphertext};

use base64::engine::general_purpose::STANDARD;

// A whole number of groups of four characters, which stand for three bytes each. Most ciphertexts are
// one piece, and each check fills the room of a piece first, so it is small.
const PIECE: usize = 1024;

const PIECE_BYTES: usize = 768;

/// Whether the text is the base64 of one block of 16 bytes or more.
pub fn is_ciphertext(text: &str) -> bool
    ensures { IsTrue result ↔ IsCiphertext text.now }
{
    match decoded_len(text.as_bytes()) {
        Some(count) => count > 0 && count % 16 == 0,
        None => false,
    }
}

// How many bytes a base64 text stands for. Each piece before the last stands for whole groups, so
// it has no padding.
fn decoded_len(text: &[u8]) -> Option<usize>
    ensures some { IfSome result (λ count. (bytes : List ℕ) × IsBase64 text.now bytes × (length bytes ≡ count)) }
    ensures none { IfNone result ((bytes : List ℕ) → ¬ (IsBase64 text.now bytes)) }
{
    let mut room = [0u8; PIECE_BYTES];
    let mut done = 0;
    let mut count = 0;
    while text.len() - done > PIECE {
        if piece_len(&text[done..done + PIECE], &mut room) != Some(PIECE_BYTES) {
            return None;
        }
        done += PIECE;
        count += PIECE_BYTES;
    }
    let last = piece_len(&text[done..], &mut room)?;
    Some(count + last)
}

fn piece_len(text: &[u8], room: &mut [u8]) -> Option<usize>
    requires piece { length text.now ≤ PIECE }
    requires room { length room.old ≡ PIECE_BYTES }
    ensures some { IfSome result (λ count. (bytes : List ℕ) × IsBase64 text.now bytes × (length bytes ≡ count)) }
    ensures short { IfSome result (λ count. count ≤ PIECE_BYTES) }
    ensures none { IfNone result ((bytes : List ℕ) → ¬ (IsBase64 text.now bytes)) }
{
    match STANDARD.decode_slice_unchecked(text, room) {
        Ok(count) => Some(count),
        Err(_) => None,
    }
}
