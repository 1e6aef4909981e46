//! Whether a text has the form of a part.

ghost use Rattle.std.specs.Prelude.{◌↔◌, IsTrue};
ghost use Rattle.sn_string.specs.Grammar.{IsHash, IsUuid, IsIv};

use crate::hex_texts::are_digits;
use crate::uuid_texts::uuid_of;

/// Whether the text is a hash: 64 lower-case hex digits.
pub fn is_hash(text: &str) -> bool
    ensures { IsTrue result ↔ IsHash text.now }
{
    are_digits(text, 64)
}

/// Whether the text is a uuid: 8-4-4-4-12 lower-case hex digits.
pub fn is_uuid(text: &str) -> bool
    ensures { IsTrue result ↔ IsUuid text.now }
{
    uuid_of(text).is_some()
}

/// Whether the text is an initialization vector: 32 lower-case hex digits.
pub fn is_iv(text: &str) -> bool
    ensures { IsTrue result ↔ IsIv text.now }
{
    are_digits(text, 32)
}
