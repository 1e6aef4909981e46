//! Canonical base64.

ghost use Rattle.std.specs.Prelude.{ℕ, List, string_bytes, IfOk, IfSome, IfNone};
ghost use Rattle.sn_string.specs.Base64.{IsBase64};

use base64::engine::general_purpose::STANDARD;
use base64::{DecodeAllocError, encoded_len};
use std::alloc::{AllocError, Global};

/// The base64 of some bytes.
pub fn base64_text(alloc: Global, bytes: &[u8]) -> Result<String, AllocError>
    ensures { IfOk result (λ text. IsBase64 (string_bytes text) bytes.now) }
{
    let Some(count) = encoded_len(bytes.len(), true) else {
        return Err(AllocError);
    };
    // `encode` would look at each character once more, for whether they are text.
    let mut text = String::with_capacity(alloc, count)?;
    STANDARD.encode_string(bytes, &mut text)?;
    Ok(text)
}

/// The bytes of a base64 text.
pub fn base64_bytes(alloc: Global, text: &str) -> Result<Option<Vec<u8>>, AllocError>
    ensures some { IfOk result (λ found. IfSome found (λ v. IsBase64 text.now v.items)) }
    ensures none { IfOk result (λ found. IfNone found ((bytes : List ℕ) → ¬ (IsBase64 text.now bytes))) }
{
    match STANDARD.decode(alloc, text.as_bytes()) {
        Ok(bytes) => Ok(Some(bytes)),
        Err(DecodeAllocError::OutOfMemory) => Err(AllocError),
        Err(DecodeAllocError::DecodeError(_)) => Ok(None),
    }
}
