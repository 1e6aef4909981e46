// The padding of a text (RFC 5652, 6.3).
ghost use Rattle.std.specs.Prelude.{◌≡◌, ◌≤◌, ◌<◌, ◌+◌, ℕ, length, replicate, IfOk, IfSome, IsNone, IsOk, IsTrue, ◌↔◌};
ghost use Rattle.std.specs.Vec.{vec_len, vec_capacity};
ghost use Rattle.sn_cbc.specs.Cbc.{padded, IsPadded, AreBytes};

use std::alloc::AllocError;

/// The text with its padding, in its place.
pub fn padded_text(plain: Vec<u8>) -> Result<Vec<u8>, AllocError>
    ensures text { IfOk result (λ text. text.items ≡ padded plain.items) }
    ensures room { vec_len plain + 16 ≤ vec_capacity plain → IsOk result }
{
    let mut text = plain;
    let count = 16 - text.len() % 16;
    text.reserve_exact(count)?;
    text.extend_from_slice(&[count as u8; 16][..count])?;
    Ok(text)
}

/// How many bytes of padding the text ends in.
pub fn padding_of(text: &[u8]) -> Option<usize>
    requires { 0 < length text.now }
    ensures some { IfSome result (λ n. IsPadded text.now n) }
    ensures none { IsNone result → (n : ℕ) → ¬ (IsPadded text.now n) }
    ensures bytes { AreBytes text.now }
{
    let last = text[text.len() - 1];
    let count = usize::from(last);
    if count == 0 || count > 16 || count > text.len() {
        return None;
    }
    if all_are(&text[text.len() - count..], last) {
        Some(count)
    } else {
        None
    }
}

// Whether each byte has this value.
fn all_are(bytes: &[u8], value: u8) -> bool
    ensures { IsTrue result ↔ (bytes.now ≡ replicate (length bytes.now) value) }
{
    bytes.iter().all(|&byte| byte == value)
}
