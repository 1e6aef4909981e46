//! The params part of a 003 string: base64 of a JSON object with the parameters and the version.

ghost use Rattle.std.specs.Prelude.{◌≡◌, ◌≤◌, ℕ, List, length, string_bytes, ◌<◌, ◌^◌, ◌≢◌, ◌↔◌, IfOk, IfSome, IfNone, IsTrue};
ghost use Rattle.serde_json.specs.Data.{number, string, unsigned};
ghost use Rattle.serde_json.specs.Find.{get};
ghost use Rattle.serde_json.specs.View.{view};
ghost use Rattle.sn_string.specs.Parameters.{HasParams, IsParamsJson, IsParamsPart, params_data, params_json, params_text};
ghost use Rattle.sn_string.specs.declared.params.Params.{Params};

use crate::base64_texts::{base64_bytes, base64_text};
use crate::params::Params;
use crate::plain_params::{ROOM, is_plain, is_plain_part_of, plain_params, plain_text};
use crate::text::Text;
use serde_json::{Value, json};
use std::alloc::{AllocError, Global};

// What a params part may have in bytes.
const LONGEST: usize = 8192;

/// The params part that is written for parameters.
pub fn params_text(alloc: Global, params: &Params) -> Result<String, AllocError>
    ensures text { IfOk result (λ text. string_bytes text ≡ params_text params.now) }
    ensures reads { IfOk result (λ text. IsParamsPart (string_bytes text) params.now) }
{
    let json = params_json(alloc, params)?;
    base64_text(alloc, json.as_bytes())
}

fn params_json(alloc: Global, params: &Params) -> Result<String, AllocError>
    ensures text { IfOk result (λ json. string_bytes json ≡ params_json params.now) }
    ensures reads { IfOk result (λ json. IsParamsJson (string_bytes json) params.now) }
{
    let identifier = params.identifier.as_str();
    let pw_nonce = params.pw_nonce.as_str();
    if is_plain(identifier) && is_plain(pw_nonce) {
        return plain_text(alloc, identifier, params.pw_cost, pw_nonce);
    }
    escaped_text(alloc, params)
}

// The JSON of parameters, in which characters may be escaped.
fn escaped_text(alloc: Global, params: &Params) -> Result<String, AllocError>
    ensures text { IfOk result (λ json. string_bytes json ≡ params_json params.now) }
    ensures reads { IfOk result (λ json. IsParamsJson (string_bytes json) params.now) }
{
    params_value(alloc, params)?.to_string(alloc)
}

/// The JSON object of parameters.
pub fn params_value(alloc: Global, params: &Params) -> Result<Value, AllocError>
    ensures { IfOk result (λ value. view value ≡ params_data params.now) }
{
    let identifier = params.identifier.as_str();
    let pw_nonce = params.pw_nonce.as_str();
    json!(in alloc; {
        "identifier": identifier,
        "pw_cost": params.pw_cost,
        "pw_nonce": pw_nonce,
        "version": "003"
    })
}

/// The parameters that a params part stands for.
pub fn params_of_part(alloc: Global, part: &str) -> Result<Option<Params>, AllocError>
    ensures some { IfOk result (λ found. IfSome found (λ p. IsParamsPart part.now p)) }
    ensures none { IfOk result (λ found. IfNone found ((p : Params) → ¬ (IsParamsPart part.now p))) }
{
    let mut room = [0u8; ROOM];
    match plain_params(part, &mut room) {
        Some(lent) => {
            let params = lent.owned(alloc)?;
            Ok(Some(params))
        }
        None => params_read(alloc, part),
    }
}

/// Whether the part stands for parameters.
pub(crate) fn is_params_part(alloc: Global, part: &str) -> Result<bool, AllocError>
    ensures { IfOk result (λ is. IsTrue is ↔ ((p : Params) × IsParamsPart part.now p)) }
{
    let mut room = [0u8; ROOM];
    if plain_params(part, &mut room).is_some() {
        return Ok(true);
    }
    let found = params_read(alloc, part)?;
    Ok(found.is_some())
}

/// Whether the part stands for these parameters.
pub(crate) fn is_part_of(alloc: Global, part: &str, params: &Params) -> Result<bool, AllocError>
    ensures { IfOk result (λ is. IsTrue is ↔ IsParamsPart part.now params.now) }
{
    if is_plain_part_of(part, params) {
        return Ok(true);
    }
    let mut room = [0u8; ROOM];
    if let Some(lent) = plain_params(part, &mut room) {
        return Ok(lent.are(params));
    }
    match params_read(alloc, part)? {
        Some(found) => Ok(found.same(params)),
        None => Ok(false),
    }
}

// The parameters that a params part stands for, by the JSON reader.
fn params_read(alloc: Global, part: &str) -> Result<Option<Params>, AllocError>
    ensures some { IfOk result (λ found. IfSome found (λ p. IsParamsPart part.now p)) }
    ensures none { IfOk result (λ found. IfNone found ((p : Params) → ¬ (IsParamsPart part.now p))) }
{
    if part.len() > LONGEST {
        return Ok(None);
    }
    let Some(json) = base64_bytes(alloc, part)? else {
        return Ok(None);
    };
    params_of_json(alloc, json.as_slice())
}

fn params_of_json(alloc: Global, json: &[u8]) -> Result<Option<Params>, AllocError>
    ensures some { IfOk result (λ found. IfSome found (λ p. IsParamsJson json.now p)) }
    ensures none { IfOk result (λ found. IfNone found ((p : Params) → ¬ (IsParamsJson json.now p))) }
{
    match Value::from_slice(alloc, json) {
        Ok(value) => params_of(alloc, &value),
        Err(error) => {
            if error.is_memory() {
                return Err(AllocError);
            }
            Ok(None)
        }
    }
}

/// The parameters in a JSON object. Its other members do not count.
pub fn params_of(alloc: Global, value: &Value) -> Result<Option<Params>, AllocError>
    ensures some { IfOk result (λ found. IfSome found (λ p. HasParams (view value.now) p)) }
    ensures none { IfOk result (λ found. IfNone found ((p : Params) → ¬ (HasParams (view value.now) p))) }
{
    let Some(identifier) = text_of(value, "identifier") else {
        return Ok(None);
    };
    let Some(pw_cost) = cost_of(value, "pw_cost") else {
        return Ok(None);
    };
    let Some(pw_nonce) = text_of(value, "pw_nonce") else {
        return Ok(None);
    };
    let Some("003") = text_of(value, "version") else {
        return Ok(None);
    };
    let identifier = Text::of(alloc, identifier)?;
    let pw_nonce = Text::of(alloc, pw_nonce)?;
    Ok(Params::new(identifier, pw_cost, pw_nonce))
}

fn text_of<'v>(value: &'v Value, name: &str) -> Option<&'v str>
    ensures some { IfSome result (λ text. get name.now (view value.now) ≡ Some (string text.now)) }
    ensures none { IfNone result ((text : List ℕ) → get name.now (view value.now) ≢ Some (string text)) }
{
    value.get(name).and_then(Value::as_str)
}

fn cost_of(value: &Value, name: &str) -> Option<u32>
    ensures some { IfSome result (λ cost. get name.now (view value.now) ≡ Some (number (unsigned cost))) }
    ensures none { IfNone result ((cost : ℕ) → cost < 2 ^ 32
        → get name.now (view value.now) ≢ Some (number (unsigned cost))) }
{
    let number = value.get(name).and_then(Value::as_u64)?;
    u32::try_from(number).ok()
}
