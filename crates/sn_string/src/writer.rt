//! Writing a 003 string.

ghost use Rattle.std.specs.Prelude.{◌≡◌, ℕ, List, [], ◌∷◌, ◌++◌, string_bytes, IfOk};
ghost use Rattle.sn_string.specs.Base64.{base64_text};
ghost use Rattle.sn_string.specs.Grammar.{Is003, IsHash, IsUuid, IsIv, IsCiphertext, Reading, colon, joined, version, with_params_of, written};
ghost use Rattle.sn_string.specs.Parameters.{IsParamsPart, params_text};
ghost use Rattle.sn_string.specs.declared.params.Params.{Params};

use crate::params::Params;
use crate::params_part::params_text;
use crate::reader::{Parts, six_of};
use base64::engine::general_purpose::STANDARD;
use std::alloc::{AllocError, Global};

// What a string has beside its ciphertext and its params part, with padding and one byte more.
const FRAME: usize = 144;

/// The 003 string of four parts in their forms and of parameters.
pub fn write(
    alloc: Global,
    hash: &str,
    uuid: &str,
    iv: &str,
    ciphertext: &str,
    params: &Params,
) -> Result<String, AllocError>
    requires hash { IsHash hash.now }
    requires uuid { IsUuid uuid.now }
    requires iv { IsIv iv.now }
    requires ciphertext { IsCiphertext ciphertext.now }
    ensures text { IfOk result (λ text. string_bytes text ≡ joined (version ∷ hash.now ∷ uuid.now
        ∷ iv.now ∷ ciphertext.now ∷ params_text params.now ∷ [])) }
    ensures grammar { IfOk result (λ text. Is003 (string_bytes text)
        (written hash.now uuid.now iv.now ciphertext.now params.now)) }
{
    let last = params_text(alloc, params)?;
    format!(in alloc; "003:{hash}:{uuid}:{iv}:{ciphertext}:{last}")
}

/// What the hash of a 003 string is taken of: its version, uuid, initialization vector and
/// ciphertext.
pub fn authenticated(alloc: Global, parts: &Parts<'_>) -> Result<String, AllocError>
    ensures { IfOk result (λ text. string_bytes text ≡ joined (version ∷ parts.now.uuid.now
        ∷ parts.now.iv.now ∷ parts.now.ciphertext.now ∷ [])) }
{
    let uuid = parts.uuid;
    let iv = parts.iv;
    let ciphertext = parts.ciphertext;
    format!(in alloc; "003:{uuid}:{iv}:{ciphertext}")
}

/// What the hash of a 003 string is taken of, its ciphertext given by its bytes. There is room for what
/// `with_hash` adds of this params part, and for one byte more, so that memory is taken once.
pub fn authenticated_text(
    alloc: Global,
    uuid: &str,
    iv: &str,
    bytes: &[u8],
    last: &str,
) -> Result<String, AllocError>
    ensures { IfOk result (λ text. string_bytes text ≡ joined (version ∷ uuid.now ∷ iv.now ∷ base64_text bytes.now ∷ [])) }
{
    let short = last.len().saturating_add(FRAME);
    let Some(room) = (bytes.len() / 3 * 4).checked_add(short) else {
        return Err(AllocError);
    };
    let mut text = String::with_capacity(alloc, room)?;
    text.push_str("003:")?;
    text.push_str(uuid)?;
    text.push_str(":")?;
    text.push_str(iv)?;
    text.push_str(":")?;
    STANDARD.encode_string(bytes, &mut text)?;
    Ok(text)
}

/// The 003 string of what its hash is taken of, and of its hash and its params part.
pub fn with_hash(
    alloc: Global,
    authenticated: String,
    hash: &str,
    last: &str,
) -> Result<String, AllocError>
    requires version { (rest : List ℕ) × (string_bytes authenticated ≡ version ++ colon ∷ rest) }
    requires hash { IsHash hash.now }
    ensures text { (uuid iv ciphertext : List ℕ)
        → string_bytes authenticated ≡ joined (version ∷ uuid ∷ iv ∷ ciphertext ∷ [])
        → IfOk result (λ text. string_bytes text ≡ joined (version ∷ hash.now ∷ uuid ∷ iv ∷ ciphertext ∷ last.now ∷ [])) }
    ensures grammar { (uuid iv ciphertext : List ℕ) (params : Params)
        → string_bytes authenticated ≡ joined (version ∷ uuid ∷ iv ∷ ciphertext ∷ [])
        → IsUuid uuid → IsIv iv → IsCiphertext ciphertext → last.now ≡ params_text params → IsParamsPart last.now params
        → IfOk result (λ text. Is003 (string_bytes text) (written hash.now uuid iv ciphertext params)) }
{
    framed(alloc, authenticated, hash, last)
}

fn framed(
    alloc: Global,
    authenticated: String,
    hash: &str,
    last: &str,
) -> Result<String, AllocError>
    requires { (rest : List ℕ) × (string_bytes authenticated ≡ version ++ colon ∷ rest) }
    ensures { (uuid iv ciphertext : List ℕ)
        → string_bytes authenticated ≡ joined (version ∷ uuid ∷ iv ∷ ciphertext ∷ [])
        → IfOk result (λ text. string_bytes text ≡ joined (version ∷ hash.now ∷ uuid ∷ iv ∷ ciphertext ∷ last.now ∷ [])) }
{
    let mut text = authenticated;
    let part = format!(in alloc; ":{hash}")?;
    text.insert_str(3, &part)?;
    text.push_str(":")?;
    text.push_str(last)?;
    Ok(text)
}

/// A 003 string with its params part replaced. The hash stays, since it does not cover that part.
pub fn with_params(alloc: Global, text: &str, params: &Params) -> Result<String, AllocError>
    requires { (reading : Reading) × Is003 text.now reading }
    ensures { IfOk result (λ replaced. (reading : Reading) → Is003 text.now reading
        → Is003 (string_bytes replaced) (with_params_of reading params.now)) }
{
    let Some(six) = six_of(text) else {
        unreachable!();
    };
    write(alloc, six.hash, six.uuid, six.iv, six.ciphertext, params)
}
