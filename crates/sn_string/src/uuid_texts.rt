//! Uuids in lower case with hyphens, so that each has one spelling.

ghost use Rattle.std.specs.Prelude.{◌≤◌, ◌↔◌, ℕ, List, length, string_bytes, IfOk, IfSome, IfNone, IsTrue};
ghost use Rattle.sn_string.specs.Uuids.{IsUuidText};

use std::alloc::{AllocError, Global};
use uuid::Uuid;

/// The 36 characters of a uuid.
pub fn uuid_text(alloc: Global, uuid: Uuid) -> Result<String, AllocError>
    ensures { IfOk result (λ text. IsUuidText (string_bytes text) uuid) }
{
    let mut buffer = Uuid::encode_buffer();
    spelled(uuid.as_bytes(), &mut buffer).to_string(alloc)
}

/// The uuid of 36 characters.
pub fn uuid_of(text: &str) -> Option<Uuid>
    ensures some { IfSome result (λ uuid. IsUuidText text.now uuid) }
    ensures none { IfNone result ((uuid : List ℕ) → ¬ (IsUuidText text.now uuid)) }
{
    let Ok(uuid) = Uuid::parse_str(text) else {
        return None;
    };
    // `uuid` takes other forms and either case, so what it read is written again and compared.
    let mut buffer = Uuid::encode_buffer();
    let written = spelled(uuid.as_bytes(), &mut buffer);
    if written.as_bytes() == text.as_bytes() {
        Some(uuid)
    } else {
        None
    }
}

/// Whether the text is the spelling of this uuid.
pub(crate) fn is_text_of(text: &str, uuid: Uuid) -> bool
    ensures { IsTrue result ↔ IsUuidText text.now uuid }
{
    let mut buffer = Uuid::encode_buffer();
    let written = spelled(uuid.as_bytes(), &mut buffer);
    written.as_bytes() == text.as_bytes()
}

fn spelled<'b>(bytes: &[u8; 16], buffer: &'b mut [u8]) -> &'b str
    requires { 36 ≤ length buffer.old }
    ensures { IsUuidText result.now bytes.now }
{
    Uuid::from_bytes(*bytes).hyphenated().encode_lower(buffer)
}
