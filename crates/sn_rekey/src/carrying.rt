//! Which set the versions of a device's row are sealed under.

ghost use Rattle.std.specs.Prelude.{◌≡◌, ◌≢◌, ◌↔◌, false, IfOk, IsTrue};
ghost use Rattle.sn_items.specs.Items.{Carries, CarriesParams};
ghost use Rattle.sn_rekey.specs.Carrying.{CarriesOther, CarriesSet, IsFinished, IsOfOther};
ghost use Rattle.sn_sets.specs.Sets.{sealed_of};
ghost use Rattle.sn_string.specs.declared.reader.StringError.TheVariants.{Memory};

use sn_rows::{LocalItem, RowBody, RowStrings};
use sn_string::{KeySet, Params, StringError, read};
use std::alloc::{AllocError, Global};

/// Whether a version of the item is sealed under another set than the present one.
pub fn is_of_other(alloc: Global, local: &LocalItem, present: &KeySet) -> Result<bool, AllocError>
    ensures { IfOk result (λ is. IsTrue is ↔ IsOfOther present.now local.now) }
{
    if carries_other(alloc, &local.body, present)? {
        return Ok(true);
    }
    if carries_other(alloc, &local.latest, present)? {
        return Ok(true);
    }
    carries_other(alloc, &local.posted, present)
}

/// Whether no version of the item is sealed under the set, and none is to be sent again.
pub fn is_finished(alloc: Global, local: &LocalItem, set: &KeySet) -> Result<bool, AllocError>
    ensures { IfOk result (λ is. IsTrue is ↔ IsFinished set.now local.now) }
{
    if local.stale {
        return Ok(false);
    }
    if carries_set(alloc, &local.body, set)? {
        return Ok(false);
    }
    if carries_set(alloc, &local.latest, set)? {
        return Ok(false);
    }
    if carries_set(alloc, &local.posted, set)? {
        return Ok(false);
    }
    Ok(true)
}

fn carries_other(alloc: Global, place: &Option<RowBody>, set: &KeySet) -> Result<bool, AllocError>
    ensures { IfOk result (λ other. IsTrue other ↔ CarriesOther set.now place.now) }
{
    match place {
        Some(RowBody::Sealed(strings)) => Ok(!carry(alloc, strings, set)?),
        Some(RowBody::Deleted) => Ok(false),
        None => Ok(false),
    }
}

fn carries_set(alloc: Global, place: &Option<RowBody>, set: &KeySet) -> Result<bool, AllocError>
    ensures { IfOk result (λ carries. IsTrue carries ↔ CarriesSet set.now place.now) }
{
    match place {
        Some(RowBody::Sealed(strings)) => carry(alloc, strings, set),
        Some(RowBody::Deleted) | None => Ok(false),
    }
}

// Whether both strings carry the set's parameters.
fn carry(alloc: Global, strings: &RowStrings, set: &KeySet) -> Result<bool, AllocError>
    ensures { IfOk result (λ carry. IsTrue carry ↔ Carries (sealed_of strings.now) set.now.params) }
{
    if !carries(alloc, strings.enc.as_str(), &set.params)? {
        return Ok(false);
    }
    carries(alloc, strings.content.as_str(), &set.params)
}

fn carries(alloc: Global, text: &str, params: &Params) -> Result<bool, AllocError>
    ensures { IfOk result (λ carries. IsTrue carries ↔ CarriesParams text.now params.now) }
{
    match read(alloc, text) {
        Ok(parts) => Ok(parts.params.same(params)),
        Err(error) => is_none(error),
    }
}

// A text that isn't read is no string.
fn is_none(error: StringError) -> Result<bool, AllocError>
    ensures { IfOk result (λ is. (is ≡ false) × (error ≢ Memory)) }
{
    match error {
        StringError::Memory => Err(AllocError),
        _ => Ok(false),
    }
}
