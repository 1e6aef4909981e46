//! Sealing a content for a device's row.

ghost use Rattle.std.specs.Prelude.{◌≤◌, IfOk, IsTrue, length};
ghost use Rattle.sn_items.specs.Objects.{is_object};
ghost use Rattle.sn_sets.specs.Seals.{IsLater, Seals, longest_sealed};

use sn_items::{Words, seal_item};
use sn_rows::RowStrings;
use sn_string::KeySet;
use std::alloc::{AllocError, Global};
use uuid::Uuid;

/// An item's content of 786,319 bytes at most as the two strings of a device's row, sealed under the
/// set. The item's key, the content's vector and the key string's vector are the next of the words, in
/// this order. They are drawn also where memory is wanting.
pub fn seal_strings(
    alloc: Global,
    words: &mut Words,
    uuid: Uuid,
    set: &KeySet,
    content: &str,
) -> Result<RowStrings, AllocError>
    requires object { IsTrue (is_object content.now) }
    requires short { length content.now ≤ longest_sealed }
    ensures sealed { IfOk result (λ strings. Seals words.old set.now uuid content.now strings words.new) }
    ensures words { IsLater words.old words.new }
{
    let sealed = seal_item(alloc, words, uuid, set, content)?;
    match RowStrings::new(sealed.content, sealed.enc) {
        Some(strings) => Ok(strings),
        None => unreachable!(),
    }
}
