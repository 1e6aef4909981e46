//! An item's strings, opened in order to be shown.

ghost use Rattle.std.specs.Prelude.{◌≡◌, IfOk, IsErr, Some};
ghost use Rattle.sn_items.specs.Items.{CarriesParams, OpensItem};
ghost use Rattle.sn_items.specs.declared.error.ItemError.TheVariants.{Memory};
ghost use Rattle.sn_laws.specs.Lookups.{Bytes};
ghost use Rattle.sn_string.specs.declared.params.Params.{Params};
ghost use Rattle.sn_string.specs.declared.reader.StringError.TheVariants as string;

use sn_items::{ItemError, Sealed, open_item};
use sn_string::{KeySet, StringError, Text, read};
use std::alloc::{AllocError, Global};
use uuid::Uuid;

/// The content of an item's two strings under a set; nothing where they are no item under it.
pub(crate) fn opened(
    alloc: Global,
    content: &str,
    enc: &str,
    uuid: &Uuid,
    set: &KeySet,
) -> Result<Option<Text>, AllocError>
    ensures { (text : Bytes) → OpensItem (record { content = content.now; enc = enc.now }) uuid.now set.now text
        → IfOk result (λ found. found ≡ Some text) }
{
    let content = Text::of(alloc, content)?;
    let enc = Text::of(alloc, enc)?;
    match open_item(alloc, &Sealed { content, enc }, *uuid, set) {
        Ok(text) => Ok(Some(Text::of_string(text))),
        Err((_, error)) => not_opened(error),
    }
}

// Want of memory is an error, and other strings have no content.
fn not_opened(error: ItemError) -> Result<Option<Text>, AllocError>
    ensures { error ≡ Memory → IsErr result }
{
    match error {
        ItemError::Memory => Err(AllocError),
        _ => Ok(None),
    }
}

/// The nonce of the parameters that a string carries; none where the text is no such string.
pub(crate) fn carried_nonce(alloc: Global, text: &str) -> Result<Option<Text>, AllocError>
    ensures { (params : Params) → CarriesParams text.now params → IfOk result (λ nonce. nonce ≡ Some params.pw_nonce) }
{
    match read(alloc, text) {
        Ok(parts) => Ok(Some(parts.params.pw_nonce)),
        Err(error) => not_read(error),
    }
}

// A text that isn't read is no string.
fn not_read(error: StringError) -> Result<Option<Text>, AllocError>
    ensures { error ≡ string.Memory → IsErr result }
{
    match error {
        StringError::Memory => Err(AllocError),
        _ => Ok(None),
    }
}
