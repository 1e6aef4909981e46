//! The content of a plain text.

ghost use Rattle.std.specs.Prelude.{◌≡◌, IfOk, IsTrue, Some, string_bytes};
ghost use Rattle.serde_json.specs.Read.{read};
ghost use Rattle.serde_json.specs.View.{view};
ghost use Rattle.sn_items.specs.Objects.{is_object};
ghost use Rattle.sn_notes.specs.Notes.{note_data, note_text};

use serde_json::{Value, json};
use std::alloc::{AllocError, Global};

/// The content of a note with this title and text, and no references: compact JSON, its members in
/// alphabetical order.
pub fn note(alloc: Global, title: &str, text: &str) -> Result<String, AllocError>
    ensures text { IfOk result (λ note. string_bytes note ≡ note_text title.now text.now) }
    ensures reads { IfOk result (λ note. read (string_bytes note) ≡ Some (note_data title.now text.now)) }
    ensures object { IfOk result (λ note. IsTrue (is_object (string_bytes note))) }
{
    note_value(alloc, title, text)?.to_string(alloc)
}

fn note_value(alloc: Global, title: &str, text: &str) -> Result<Value, AllocError>
    ensures { IfOk result (λ value. view value ≡ note_data title.now text.now) }
{
    json!(in alloc; {
        "references": [],
        "text": text,
        "title": title
    })
}
