//! Reading a 003 string.

ghost use Rattle.std.specs.Prelude.{◌≡◌, ◌≢◌, ◌≤◌, [], ◌∷◌, length, count_by, IfOk, IfErr, IfSome, IfNone};
ghost use Rattle.sn_string.specs.Grammar.{Is003, is_colon, parts_of};
ghost use Rattle.sn_string.specs.Refusals.{IsRefusal};
ghost use Rattle.sn_string.specs.Parts.{reading_of, IsSix, HasForms, IsLeftmostOf};

use crate::ciphertexts::is_ciphertext;
use crate::forms::{is_hash, is_iv, is_uuid};
use crate::params::Params;
use crate::params_part::params_of_part;
use memchr::memchr;
use std::alloc::Global;
use thiserror::Error;

/// Why a text is no 003 string. A place is the byte at which the part begins.
#[derive(Debug, Drop, Error)]
pub enum StringError {
    #[error("{count} parts in place of six")]
    Parts { count: usize },
    #[error("another version at {place}")]
    Version { place: usize },
    #[error("no hash at {place}")]
    Hash { place: usize },
    #[error("no uuid at {place}")]
    Uuid { place: usize },
    #[error("no initialization vector at {place}")]
    Iv { place: usize },
    #[error("no ciphertext at {place}")]
    Ciphertext { place: usize },
    #[error("no auth parameters at {place}")]
    Params { place: usize },
    #[error("out of memory")]
    Memory,
}

/// The parts of a 003 string, and the parameters that the last of them stands for.
#[derive(Debug, Drop)]
pub struct Parts<'a> {
    pub hash: &'a str,
    pub uuid: &'a str,
    pub iv: &'a str,
    pub ciphertext: &'a str,
    pub params_text: &'a str,
    pub params: Params,
}

// Six texts between colons.
#[derive(Clone, Copy)]
pub(crate) struct Six<'a> {
    pub(crate) version: &'a str,
    pub(crate) hash: &'a str,
    pub(crate) uuid: &'a str,
    pub(crate) iv: &'a str,
    pub(crate) ciphertext: &'a str,
    pub(crate) params_text: &'a str,
}

const VERSION_PLACE: usize = 0;

const HASH_PLACE: usize = 4;

const UUID_PLACE: usize = 69;

const IV_PLACE: usize = 106;

const CIPHERTEXT_PLACE: usize = 139;

/// Reads a 003 string. The leftmost part that is out of form is refused, the number of parts first.
pub fn read<'a>(alloc: Global, text: &'a str) -> Result<Parts<'a>, StringError>
    ensures ok { IfOk result (λ parts. Is003 text.now (reading_of parts)) }
    ensures err { IfErr result (λ error. IsRefusal text.now error) }
{
    let Some(six) = six_of(text) else {
        return Err(StringError::Parts {
            count: count_of(text),
        });
    };
    if let Some(error) = first_wrong(&six) {
        return Err(error);
    }
    match params_of_part(alloc, six.params_text) {
        Ok(Some(params)) => Ok(Parts {
            hash: six.hash,
            uuid: six.uuid,
            iv: six.iv,
            ciphertext: six.ciphertext,
            params_text: six.params_text,
            params,
        }),
        Ok(None) => Err(StringError::Params {
            place: text.len() - six.params_text.len(),
        }),
        Err(_) => Err(StringError::Memory),
    }
}

// The first part before the params part that is out of form.
fn first_wrong(six: &Six<'_>) -> Option<StringError>
    ensures wrong { IfSome result (λ error. IsLeftmostOf six.now error) }
    ensures right { IfNone result (HasForms six.now) }
{
    if six.version != "003" {
        return Some(StringError::Version {
            place: VERSION_PLACE,
        });
    }
    if !is_hash(six.hash) {
        return Some(StringError::Hash { place: HASH_PLACE });
    }
    if !is_uuid(six.uuid) {
        return Some(StringError::Uuid { place: UUID_PLACE });
    }
    if !is_iv(six.iv) {
        return Some(StringError::Iv { place: IV_PLACE });
    }
    if !is_ciphertext(six.ciphertext) {
        return Some(StringError::Ciphertext {
            place: CIPHERTEXT_PLACE,
        });
    }
    None
}

// The parts of a text that has six.
pub(crate) fn six_of(text: &str) -> Option<Six<'_>>
    ensures some { IfSome result (λ six. IsSix text.now six) }
    ensures none { IfNone result (length (parts_of text.now) ≢ 6) }
{
    let (version, rest) = cut(text)?;
    let (hash, rest) = cut(rest)?;
    let (uuid, rest) = cut(rest)?;
    let (iv, rest) = cut(rest)?;
    let (ciphertext, params_text) = cut(rest)?;
    match cut(params_text) {
        Some(_) => None,
        None => Some(Six {
            version,
            hash,
            uuid,
            iv,
            ciphertext,
            params_text,
        }),
    }
}

// The first part, and what follows its colon.
fn cut(text: &str) -> Option<(&str, &str)>
    ensures some { IfSome result (λ both. parts_of text.now ≡ both.0.now ∷ parts_of both.1.now) }
    ensures more { IfSome result (λ both. 2 ≤ length (parts_of text.now)) }
    ensures none { IfNone result (parts_of text.now ≡ text.now ∷ []) }
{
    // A colon is ASCII, so the text may be cut on both sides of it.
    let place = memchr(b':', text.as_bytes())?;
    Some((&text[..place], &text[place + 1..]))
}

// How many parts stand between the colons.
fn count_of(text: &str) -> usize
    ensures { result ≡ length (parts_of text.now) }
{
    colons(text.as_bytes()) + 1
}

fn colons(text: &[u8]) -> usize
    ensures { result ≡ count_by is_colon text.now }
{
    text.iter().filter(|byte| **byte == b':').count()
}
