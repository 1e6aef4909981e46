//! The copy that a conflict makes of a content.

ghost use Rattle.std.specs.Prelude.{◌≡◌, ◌+◌, ◌≤◌, IfOk, IfSome, IfNone, IsTrue, None, Some, length, string_bytes};
ghost use Rattle.sn_items.specs.Objects.{is_object};
ghost use Rattle.sn_notes.specs.Copies.{comma, copy_of, is_space, marked, opened, trimmed};

use sn_items::is_object;
use sn_string::{LONGEST_CONTENT, uuid_text};
use std::alloc::{AllocError, Global};
use uuid::Uuid;

/// The copy of a content for the item with this uuid: the content with the member `conflict_of`. A
/// content of more than 700,000 bytes, or whose copy so made is no object, is its own copy.
#[tactic(auto, using(crate::proofs::CopyLemmas::copy_object, crate::proofs::CopyLemmas::copy_bound))]
pub fn conflict_copy(alloc: Global, content: &str, uuid: Uuid) -> Result<String, AllocError>
    ensures copy { IfOk result (λ copy. string_bytes copy ≡ copy_of content.now uuid) }
    ensures object { IsTrue (is_object content.now) → IfOk result (λ copy. IsTrue (is_object (string_bytes copy))) }
    ensures bound { IfOk result (λ copy. length (string_bytes copy) ≤ length content.now + 53) }
{
    match marked_copy(alloc, content, uuid)? {
        Some(copy) => Ok(copy),
        None => content.to_string(alloc),
    }
}

// The copy of a content, where that isn't its own.
#[tactic(auto, using(crate::proofs::CopyLemmas::copied, crate::proofs::CopyLemmas::kept_other, crate::proofs::CopyLemmas::kept_closed, crate::proofs::CopyLemmas::kept_long))]
fn marked_copy(alloc: Global, content: &str, uuid: Uuid) -> Result<Option<String>, AllocError>
    ensures some { IfOk result (λ found. IfSome found (λ copy. string_bytes copy ≡ copy_of content.now uuid)) }
    ensures none { IfOk result (λ found. IfNone found (copy_of content.now uuid ≡ content.now)) }
{
    if content.len() > LONGEST_CONTENT {
        return Ok(None);
    }
    let Some(front) = opened(content) else {
        return Ok(None);
    };
    let copy = marked(alloc, front, uuid)?;
    if is_object(alloc, &copy)? {
        Ok(Some(copy))
    } else {
        Ok(None)
    }
}

// An object's text without its last brace and the white space behind that.
fn opened(text: &str) -> Option<&str>
    ensures some { IfSome result (λ front. opened text.now ≡ Some front.now) }
    ensures none { IfNone result (opened text.now ≡ None) }
{
    trimmed(text).strip_suffix('}')
}

fn marked(alloc: Global, front: &str, uuid: Uuid) -> Result<String, AllocError>
    ensures { IfOk result (λ text. string_bytes text ≡ marked front.now uuid) }
{
    let comma = comma(front);
    let uuid = uuid_text(alloc, uuid)?;
    format!(in alloc; "{front}{comma}\"conflict_of\":\"{uuid}\"}}")
}

// What parts the members before from one more.
fn comma(front: &str) -> &str
    ensures { result.now ≡ comma front.now }
{
    if trimmed(front).ends_with('{') {
        ""
    } else {
        ","
    }
}

fn trimmed(text: &str) -> &str
    ensures { result.now ≡ trimmed text.now }
{
    let bytes = text.as_bytes();
    let mut end = bytes.len();
    while end > 0 && is_space(bytes[end - 1]) {
        end -= 1;
    }
    &text[..end]
}

fn is_space(byte: u8) -> bool
    ensures { result ≡ is_space byte }
{
    matches!(byte, b' ' | b'\t' | b'\n' | b'\r')
}
