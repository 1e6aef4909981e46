// Sealing a text.
ghost use Rattle.std.specs.Prelude.{◌≡◌, ℕ, List, IfOk, string_bytes};
ghost use Rattle.std.specs.Str.{IsUtf8};
ghost use Rattle.sn_cbc.specs.Cbc.{IsCbc};
ghost use Rattle.sn_items.specs.Draws.{drawn};
ghost use Rattle.sn_items.specs.Items.{CarriesParams};
ghost use Rattle.sn_items.specs.Opens.{Opens};
ghost use Rattle.sn_items.specs.Seals.{IsSealed, IsWrittenPart};
ghost use Rattle.sn_string.specs.declared.params.Params.{Params};

use crate::words::Words;
use sn_cbc::{seal, seal_owned};
use sn_hmac::hmac_sha256;
use sn_string::{Params, authenticated_text, hex_text, params_text, uuid_text, with_hash};
use std::alloc::{AllocError, Global};
use uuid::Uuid;

/// The 003 string of a plain text, as that of an item's uuid. Its initialization vector is the next one of the words.
pub fn seal_text(
    alloc: Global,
    words: &mut Words,
    plain: &str,
    uuid: Uuid,
    encryption_key: &[u8; 32],
    authentication_key: &[u8; 32],
    params: &Params,
) -> Result<String, AllocError>
    ensures sealed { (iv : List ℕ) × ((iv, words.new) ≡ drawn 16 words.old) × IfOk result (λ text.
        IsSealed plain.now uuid iv encryption_key.now authentication_key.now params.now (string_bytes text)) }
    ensures opens { IfOk result (λ text. Opens (string_bytes text) uuid encryption_key.now authentication_key.now plain.now) }
    ensures carries { IfOk result (λ text. CarriesParams (string_bytes text) params.now) }
{
    let iv = words.iv();
    let last = params_text(alloc, params)?;
    sealed_text(
        alloc,
        &iv,
        plain,
        uuid,
        encryption_key,
        authentication_key,
        &last,
    )
}

/// As `seal_text`, of a plain text that is given up. Memory is taken for the string alone, where the plain text has
/// room for 16 bytes more.
pub fn seal_owned_text(
    alloc: Global,
    words: &mut Words,
    plain: String,
    uuid: Uuid,
    encryption_key: &[u8; 32],
    authentication_key: &[u8; 32],
    params: &Params,
) -> Result<String, AllocError>
    ensures sealed { (iv : List ℕ) × ((iv, words.new) ≡ drawn 16 words.old) × IfOk result (λ text.
        IsSealed (string_bytes plain) uuid iv encryption_key.now authentication_key.now params.now (string_bytes text)) }
    ensures opens { IfOk result (λ text. Opens (string_bytes text) uuid encryption_key.now authentication_key.now (string_bytes plain)) }
    ensures carries { IfOk result (λ text. CarriesParams (string_bytes text) params.now) }
{
    let iv = words.iv();
    let last = params_text(alloc, params)?;
    let bytes = seal_owned(encryption_key, &iv, plain.into_bytes())?;
    string_of(alloc, &iv, &bytes, uuid, authentication_key, &last)
}

/// The 003 string of a plain text under this initialization vector, with a params part that was written.
pub fn sealed_text(
    alloc: Global,
    iv: &[u8; 16],
    plain: &str,
    uuid: Uuid,
    encryption_key: &[u8; 32],
    authentication_key: &[u8; 32],
    last: &str,
) -> Result<String, AllocError>
    ensures sealed { (params : Params) → IsWrittenPart last.now params → IfOk result (λ text.
        IsSealed plain.now uuid iv.now encryption_key.now authentication_key.now params (string_bytes text)) }
    ensures opens { (params : Params) → IsWrittenPart last.now params
        → IfOk result (λ text. Opens (string_bytes text) uuid encryption_key.now authentication_key.now plain.now) }
    ensures carries { (params : Params) → IsWrittenPart last.now params
        → IfOk result (λ text. CarriesParams (string_bytes text) params) }
{
    let bytes = seal(alloc, encryption_key, iv, plain.as_bytes())?;
    string_of(alloc, iv, &bytes, uuid, authentication_key, last)
}

// The 003 string of a ciphertext.
fn string_of(
    alloc: Global,
    iv: &[u8; 16],
    bytes: &[u8],
    uuid: Uuid,
    authentication_key: &[u8; 32],
    last: &str,
) -> Result<String, AllocError>
    ensures sealed { (encryption_key plain : List ℕ) (params : Params) → IsCbc encryption_key iv.now plain bytes.now
        → IsWrittenPart last.now params
        → IfOk result (λ text. IsSealed plain uuid iv.now encryption_key authentication_key.now params (string_bytes text)) }
    ensures opens { (encryption_key plain : List ℕ) (params : Params) → IsCbc encryption_key iv.now plain bytes.now
        → IsWrittenPart last.now params → IsUtf8 plain
        → IfOk result (λ text. Opens (string_bytes text) uuid encryption_key authentication_key.now plain) }
    ensures carries { (encryption_key plain : List ℕ) (params : Params) → IsCbc encryption_key iv.now plain bytes.now
        → IsWrittenPart last.now params
        → IfOk result (λ text. CarriesParams (string_bytes text) params) }
{
    let uuid = uuid_text(alloc, uuid)?;
    let iv = hex_text(alloc, iv)?;
    let text = authenticated_text(alloc, &uuid, &iv, bytes, last)?;
    let hash = hmac_sha256(authentication_key, text.as_bytes());
    let hash = hex_text(alloc, &hash)?;
    with_hash(alloc, text, &hash, last)
}
