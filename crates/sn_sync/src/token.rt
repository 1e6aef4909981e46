//! Tokens: how far a device has an account's versions.

ghost use Rattle.std.specs.Prelude.{◌≡◌, ◌≤◌, ◌++◌, ℕ, codes, string_bytes, IfErr, IfNone, IfOk, IfSome};
ghost use Rattle.std.specs.Fmt.{decimal};
ghost use Rattle.sn_string.specs.Bounds.{last_stamp};
ghost use Rattle.sn_sync.specs.Tokens.{IsToken};

use crate::digits::decimal;
use crate::stamp::BadForm;
use base64::engine::general_purpose::STANDARD;
use sn_string::{LAST_STAMP, base64_text};
use std::alloc::{AllocError, Global};

// The longest token, that of 18 digits.
const MAX_LEN: usize = 28;

/// The token of a stamp: the base64 of `2:` and its decimal.
pub fn token_text(alloc: Global, stamp: u64) -> Result<String, AllocError>
    requires { stamp ≤ last_stamp }
    ensures { IfOk result (λ text. IsToken (string_bytes text) stamp) }
{
    let text = format!(in alloc; "2:{stamp}")?;
    base64_text(alloc, text.as_bytes())
}

/// The stamp of a token. Takes no memory.
pub fn token_read(text: &str) -> Result<u64, BadForm>
    ensures ok { IfOk result (IsToken text.now) }
    ensures err { IfErr result (λ e. (stamp : ℕ) → ¬ (IsToken text.now stamp)) }
{
    stamp_of(text.as_bytes()).ok_or(BadForm)
}

fn stamp_of(text: &[u8]) -> Option<u64>
    ensures some { IfSome result (IsToken text.now) }
    ensures none { IfNone result ((stamp : ℕ) → ¬ (IsToken text.now stamp)) }
{
    if text.len() > MAX_LEN {
        return None;
    }
    let mut bytes = [0; 21];
    let len = STANDARD.decode_slice_unchecked(text, &mut bytes).ok()?;
    stamp_in(&bytes[..len])
}

// The stamp of the bytes that a token is the base64 of.
fn stamp_in(bytes: &[u8]) -> Option<u64>
    ensures some { IfSome result (λ stamp. (stamp ≤ last_stamp) × (bytes.now ≡ codes "2:" ++ decimal stamp)) }
    ensures none { IfNone result ((stamp : ℕ) → stamp ≤ last_stamp → ¬ (bytes.now ≡ codes "2:" ++ decimal stamp)) }
{
    let stamp = decimal(bytes.strip_prefix(b"2:")?)?;
    (stamp <= LAST_STAMP).then_some(stamp)
}
