//! Whether a text is a 003 string of a uuid. Its parts are not given, so a usual string is tested
//! without memory.

ghost use Rattle.std.specs.Prelude.{◌≡◌, ◌↔◌, IfOk, IfSome, IfNone, IsTrue};
ghost use Rattle.sn_string.specs.Grammar.{Is003, Reading};
ghost use Rattle.sn_string.specs.Parts.{HasForms, IsSix};
ghost use Rattle.sn_string.specs.Uuids.{IsUuidText};

use crate::ciphertexts::is_ciphertext;
use crate::forms::{is_hash, is_iv};
use crate::params::Params;
use crate::params_part::{is_params_part, is_part_of};
use crate::reader::{Six, six_of};
use crate::uuid_texts::is_text_of;
use std::alloc::{AllocError, Global};
use uuid::Uuid;

/// Whether the text is a 003 string that names the uuid.
pub fn names_uuid(alloc: Global, text: &str, uuid: Uuid) -> Result<bool, AllocError>
    ensures { IfOk result (λ named. IsTrue named
        ↔ ((reading : Reading) × Is003 text.now reading × IsUuidText reading.uuid uuid)) }
{
    match six_of_uuid(text, uuid) {
        Some(six) => is_params_part(alloc, six.params_text),
        None => Ok(false),
    }
}

/// Whether the text is a 003 string that names the uuid and has these parameters.
pub fn names_uuid_under(
    alloc: Global,
    text: &str,
    uuid: Uuid,
    params: &Params,
) -> Result<bool, AllocError>
    ensures { IfOk result (λ named. IsTrue named
        ↔ ((reading : Reading) × Is003 text.now reading × IsUuidText reading.uuid uuid × (reading.params ≡ params.now))) }
{
    match six_of_uuid(text, uuid) {
        Some(six) => is_part_of(alloc, six.params_text, params),
        None => Ok(false),
    }
}

// The parts of a text, where those before the last are in their forms and name the uuid.
fn six_of_uuid(text: &str, uuid: Uuid) -> Option<Six<'_>>
    ensures parts { IfSome result (λ six. IsSix text.now six) }
    ensures forms { IfSome result (λ six. HasForms six × IsUuidText six.uuid.now uuid) }
    ensures none { IfNone result ((reading : Reading) → Is003 text.now reading → ¬ (IsUuidText reading.uuid uuid)) }
{
    let six = six_of(text)?;
    if has_forms(&six, uuid) {
        Some(six)
    } else {
        None
    }
}

// Whether the parts before the last are in their forms and name the uuid. The uuid is compared
// first: that takes least.
fn has_forms(six: &Six<'_>, uuid: Uuid) -> bool
    ensures { IsTrue result ↔ (HasForms six.now × IsUuidText six.now.uuid.now uuid) }
{
    six.version == "003"
        && is_text_of(six.uuid, uuid)
        && is_hash(six.hash)
        && is_iv(six.iv)
        && is_ciphertext(six.ciphertext)
}
