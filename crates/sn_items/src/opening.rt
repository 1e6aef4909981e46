// Opening a text.
ghost use Rattle.std.specs.Prelude.{◌≡◌, ℕ, List, IfOk, IfErr, IsErrOf, string_bytes};
ghost use Rattle.std.specs.Str.{IsUtf8};
ghost use Rattle.sn_cbc.specs.Cbc.{AreBytes};
ghost use Rattle.sn_items.specs.Opens.{Opens, Decrypts};
ghost use Rattle.sn_items.specs.Refusals.{HasCause};
ghost use Rattle.sn_items.specs.Utf8.{IsValidTo};
ghost use Rattle.sn_string.specs.Grammar.{Is003, IsIv, IsCiphertext};
ghost use Rattle.sn_string.specs.Parts.{reading_of};

use crate::error::ItemError;
use crate::hash::hash_of_parts;
use crate::utf8::utf8_text;
use sn_cbc::{CbcError, unseal_owned};
use sn_string::{Parts, StringError, base64_bytes, hash_bytes, iv_bytes, read, uuid_of};
use std::alloc::Global;
use uuid::Uuid;

/// The plain text of a 003 string. The uuid and the hash are compared before anything is decrypted.
pub fn open_text(
    alloc: Global,
    text: &str,
    uuid: Uuid,
    encryption_key: &[u8; 32],
    authentication_key: &[u8; 32],
) -> Result<String, ItemError>
    ensures ok { IfOk result (λ plain. Opens text.now uuid encryption_key.now authentication_key.now (string_bytes plain)) }
    ensures err { IfErr result (HasCause text.now uuid encryption_key.now authentication_key.now) }
{
    match read(alloc, text) {
        Ok(parts) => open_parts(alloc, &parts, uuid, encryption_key, authentication_key),
        Err(StringError::Memory) => Err(ItemError::Memory),
        Err(error) => Err(ItemError::Form(error)),
    }
}

/// The plain text of a 003 string that was read.
pub fn open_parts(
    alloc: Global,
    parts: &Parts,
    uuid: Uuid,
    encryption_key: &[u8; 32],
    authentication_key: &[u8; 32],
) -> Result<String, ItemError>
    requires { (text : List ℕ) × Is003 text (reading_of parts.now) }
    ensures ok { IfOk result (λ plain. (text : List ℕ) → Is003 text (reading_of parts.now)
        → Opens text uuid encryption_key.now authentication_key.now (string_bytes plain)) }
    ensures err { IfErr result (λ error. (text : List ℕ) → Is003 text (reading_of parts.now)
        → HasCause text uuid encryption_key.now authentication_key.now error) }
{
    let Some(written) = uuid_of(parts.uuid) else {
        unreachable!();
    };
    if written != uuid {
        return Err(ItemError::OtherUuid { written });
    }
    let Some(written) = hash_bytes(parts.hash) else {
        unreachable!();
    };
    let computed = hash_of_parts(authentication_key, parts.uuid, parts.iv, parts.ciphertext);
    if written.as_slice() != computed.as_slice() {
        return Err(ItemError::HashMismatch { written, computed });
    }
    match plain_bytes(alloc, parts.iv, parts.ciphertext, encryption_key) {
        Ok(plain) => plain_text(plain),
        Err(CbcError::Padding) => Err(ItemError::Padding),
        Err(CbcError::Length { .. }) => unreachable!(),
        Err(CbcError::Memory) => Err(ItemError::Memory),
    }
}

fn plain_bytes(
    alloc: Global,
    iv: &str,
    ciphertext: &str,
    encryption_key: &[u8; 32],
) -> Result<Vec<u8>, CbcError>
    requires iv { IsIv iv.now }
    requires ciphertext { IsCiphertext ciphertext.now }
    ensures ok { IfOk result (λ plain. Decrypts iv.now ciphertext.now encryption_key.now plain.items) }
    ensures padding { IsErrOf result CbcError.Padding → (plain : List ℕ) → AreBytes plain
        → ¬ (Decrypts iv.now ciphertext.now encryption_key.now plain) }
    ensures whole { (length : ℕ) → ¬ (IsErrOf result (CbcError.Length length)) }
{
    let Some(iv) = iv_bytes(iv) else {
        unreachable!();
    };
    let Some(bytes) = base64_bytes(alloc, ciphertext)? else {
        unreachable!();
    };
    unseal_owned(encryption_key, &iv, bytes)
}

fn plain_text(plain: Vec<u8>) -> Result<String, ItemError>
    ensures ok { IfOk result (λ text. IsUtf8 plain.items × (string_bytes text ≡ plain.items)) }
    ensures err { IfErr result (λ error. (place : ℕ) × (error ≡ ItemError.NotUtf8 place) × IsValidTo plain.items place) }
{
    match utf8_text(plain) {
        Ok(text) => Ok(text),
        Err(place) => Err(ItemError::NotUtf8 { place }),
    }
}
