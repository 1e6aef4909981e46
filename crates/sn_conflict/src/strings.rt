//! Strings of an item in an answer.

ghost use Rattle.std.specs.Prelude.{◌↔◌, IfOk, IsTrue};
ghost use Rattle.sn_conflict.specs.Checks.{HasItsStrings, IsStringOf};
ghost use Rattle.sn_items.specs.Opens.{NamesItem};
ghost use Rattle.sn_string.specs.Grammar.{Reading};

use sn_string::{MOST_STRING, names_uuid};
use sn_sync::{Body, Item};
use std::alloc::{AllocError, Global};
use uuid::Uuid;

/// Whether the strings of an item are 003 strings of its uuid within their bounds.
pub(crate) fn has_its_strings(alloc: Global, item: &Item) -> Result<bool, AllocError>
    ensures { IfOk result (λ has. IsTrue has ↔ HasItsStrings item.now) }
{
    let Body::Strings { content, enc } = &item.body else {
        return Ok(true);
    };
    if !is_string_of(alloc, item.uuid, content.as_str())? {
        return Ok(false);
    }
    is_string_of(alloc, item.uuid, enc.as_str())
}

fn is_string_of(alloc: Global, uuid: Uuid, text: &str) -> Result<bool, AllocError>
    ensures { IfOk result (λ is. IsTrue is ↔ IsStringOf uuid text.now) }
{
    if text.len() > MOST_STRING {
        return Ok(false);
    }
    names_item(alloc, uuid, text)
}

/// Whether a text is a 003 string of this uuid, of whatever length.
pub fn names_item(alloc: Global, uuid: Uuid, text: &str) -> Result<bool, AllocError>
    ensures { IfOk result (λ named. IsTrue named ↔ ((reading : Reading) × NamesItem text.now reading uuid)) }
{
    names_uuid(alloc, text, uuid)
}
