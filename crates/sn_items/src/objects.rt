// Texts that are JSON objects.
ghost use Rattle.std.specs.Prelude.{◌≡◌, IfOk};
ghost use Rattle.sn_items.specs.Objects.{is_object};

use sn_json::{Document, JsonError, Scratch};
use std::alloc::{AllocError, Global};

/// Whether `serde_json` reads the text as an object. A number too large for a double, a lone
/// surrogate or more than 127 levels make a text that it doesn't read.
pub fn is_object(alloc: Global, text: &str) -> Result<bool, AllocError>
    ensures { IfOk result (λ found. found ≡ is_object text.now) }
{
    let mut scratch = Scratch::new(alloc);
    match Document::read(alloc, text, &mut scratch) {
        Ok(document) => Ok(document.root().is_object()),
        Err(JsonError::NotJson) => Ok(false),
        Err(JsonError::Memory) => Err(AllocError),
    }
}
