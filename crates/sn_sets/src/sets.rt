//! The key sets of a device.

ghost use Rattle.std.specs.Prelude.{◌≡◌, ◌≢◌, None, IfOk, IfSome, IfNone, string_bytes};
ghost use Rattle.sn_items.specs.Items.{OpensItem};
ghost use Rattle.sn_items.specs.declared.error.ItemError.TheVariants.{Memory};
ghost use Rattle.sn_sets.specs.Sets.{OpensHeld, OpensNot, OpensNowhere, sealed_of};

use sn_items::{ItemError, Sealed, open_item};
use sn_rows::RowStrings;
use sn_string::{KeySet, TryClone};
use std::alloc::{AllocError, Global};
use uuid::Uuid;

/// The sets of a device: it holds the present one and at most one older one, and at most one more is
/// asked for while a change of password runs.
#[derive(Drop)]
pub struct Sets {
    pub present: KeySet,
    pub older: Option<KeySet>,
    pub asked: Option<KeySet>,
}

impl Sets {
    /// The content that an item's strings open to under the present set or else under the older one, or
    /// none where they open under neither.
    pub fn open(
        &self,
        alloc: Global,
        uuid: Uuid,
        sealed: &Sealed,
    ) -> Result<Option<String>, AllocError>
        ensures some { IfOk result (λ found. IfSome found (λ text. OpensHeld self.now uuid sealed.now (string_bytes text))) }
        ensures none { IfOk result (λ found. IfNone found (OpensNowhere self.now uuid sealed.now)) }
    {
        match open_under(alloc, &self.present, uuid, sealed)? {
            Some(text) => Ok(Some(text)),
            None => self.open_older(alloc, uuid, sealed),
        }
    }

    fn open_older(
        &self,
        alloc: Global,
        uuid: Uuid,
        sealed: &Sealed,
    ) -> Result<Option<String>, AllocError>
        requires { OpensNot self.now.present uuid sealed.now }
        ensures some { IfOk result (λ found. IfSome found (λ text. OpensHeld self.now uuid sealed.now (string_bytes text))) }
        ensures none { IfOk result (λ found. IfNone found (OpensNowhere self.now uuid sealed.now)) }
    {
        match &self.older {
            Some(older) => open_under(alloc, older, uuid, sealed),
            None => Ok(None),
        }
    }
}

fn open_under(
    alloc: Global,
    set: &KeySet,
    uuid: Uuid,
    sealed: &Sealed,
) -> Result<Option<String>, AllocError>
    ensures some { IfOk result (λ found. IfSome found (λ text. OpensItem sealed.now uuid set.now (string_bytes text))) }
    ensures none { IfOk result (λ found. IfNone found (OpensNot set.now uuid sealed.now)) }
{
    match open_item(alloc, sealed, uuid, set) {
        Ok(text) => Ok(Some(text)),
        Err((_, error)) => opens_none(error),
    }
}

// Strings that are refused open to nothing.
fn opens_none(error: ItemError) -> Result<Option<String>, AllocError>
    ensures { IfOk result (λ found. (found ≡ None) × (error ≢ Memory)) }
{
    match error {
        ItemError::Memory => Err(AllocError),
        _ => Ok(None),
    }
}

/// The strings of a device's row, as an item's.
pub fn sealed_strings(alloc: Global, strings: &RowStrings) -> Result<Sealed, AllocError>
    ensures { IfOk result (λ sealed. sealed ≡ sealed_of strings.now) }
{
    let content = strings.content.try_clone(alloc)?;
    let enc = strings.enc.try_clone(alloc)?;
    Ok(Sealed { content, enc })
}
