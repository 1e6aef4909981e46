//! Reading a whole text.

ghost use Rattle.std.specs.Prelude.{◌≡◌, is_some, true};
ghost use Rattle.json.specs.Value.{value_view};
ghost use Rattle.serde_json.specs.Read.{of_json};

use crate::error::JsonError;
use crate::node::Node;
use crate::values::has_value;
use json::{Reader, Scratch, Value};
use std::alloc::Global;

// How deep arrays and objects nest at most.
const MAX_DEPTH: usize = 127;

/// A text that was read, as a tree. What strings it unescaped stands in the memory that reading was lent.
#[derive(Drop)]
pub struct Document<'a> {
    tree: Value<'a>,
    ghost has_data: { is_some (of_json (value_view tree)) ≡ true },
}

impl<'a> Document<'a> {
    ghost use Rattle.std.specs.Prelude.{◌≡◌, IfErr, IfOk, IsUtf8, None, Some};
    ghost use Rattle.serde_json.specs.Read.{read as data_in};
    ghost use Rattle.sn_json.specs.Views.{document_view, view};
    ghost use Rattle.sn_json.specs.declared.error.JsonError.TheVariants.{NotJson};

    /// Reads a text. The scratch is lent for as long as the document is kept.
    pub fn read(
        alloc: Global,
        text: &'a str,
        scratch: &'a mut Scratch,
    ) -> Result<Document<'a>, JsonError>
        ensures ok { IfOk result (λ document. data_in text.now ≡ Some (document_view document)) }
        ensures err { IfErr result (λ e. e ≡ NotJson → data_in text.now ≡ None) }
    {
        let mut reader = Reader::new(text, scratch)?;
        let tree = Value::read(alloc, &mut reader, MAX_DEPTH)?;
        if reader.next().is_some() {
            return Err(JsonError::NotJson);
        }
        if has_value(&tree) {
            Ok(Document { tree })
        } else {
            Err(JsonError::NotJson)
        }
    }

    /// Reads the bytes of a text in UTF-8.
    pub fn from_slice(
        alloc: Global,
        bytes: &'a [u8],
        scratch: &'a mut Scratch,
    ) -> Result<Document<'a>, JsonError>
        ensures ok { IfOk result (λ document. IsUtf8 bytes.now × (data_in bytes.now ≡ Some (document_view document))) }
        ensures err { IfErr result (λ e. e ≡ NotJson → IsUtf8 bytes.now → data_in bytes.now ≡ None) }
    {
        match simdutf8::compat::from_utf8(bytes) {
            Ok(text) => Document::read(alloc, text, scratch),
            Err(_) => Err(JsonError::NotJson),
        }
    }

    /// The value that the text is.
    pub fn root(&self) -> Node<'_, 'a>
        ensures { view result ≡ document_view self.now }
    {
        Node { value: &self.tree }
    }
}
